// Thinning in lent memory: the parts of a step, for both rules and for whole calls and slots alike, and the step of the plain rule.
#![tactic(auto)]

ghost use Rattle.std.specs.Prelude.{◌≤◌};
ghost use Rattle.rule.specs.Sizes.{most_points};
ghost use Rattle.layout.specs.Layout.{Room};
ghost use Rattle.scoring.specs.Plot.{Points};
ghost use Rattle.thin.specs.Queue.{PickDone};
ghost use Rattle.thin.specs.State.{Removed, Seeded};
ghost use Rattle.thin.specs.Plain.{StepDone};

use layout::{Layout, Plot};
use links::Linked;
use vscore::VScore;

// A removal: the point's index, and its area.
#[derive(Clone, Copy)]
pub struct Removal {
    pub index: u32,
    pub area: f64,
}

// One removal of the plain rule, if there is one to make. The number of scores is kept in len, here and below.
// As it is: the two slices and their layout are three parameters, since behind a `&mut` struct each contract would have to say that layout and lengths stay.
pub fn step(
    p: Plot,
    floats: &mut [f64],
    words: &mut [u32],
    len: &mut usize,
    tolerance: f64,
) -> Option<Removal>
    requires { Room p.m floats.old words.old × (len.old ≤ p.m.capacity) }
    ensures { StepDone p.entry.x.now p.entry.y.now floats.old words.old p.entry.m len.old tolerance floats.new words.new len.new result }
{
    let s = pick(floats, words, p.m, len, tolerance)?;
    remove(p, floats, words, len, s, None);
    Some(Removal {
        index: s.current,
        area: s.area,
    })
}

// Takes off the first score that is not stale, unless its area is above the tolerance.
pub fn pick(
    floats: &mut [f64],
    words: &mut [u32],
    m: Layout,
    len: &mut usize,
    tolerance: f64,
) -> Option<VScore>
    requires { Room m floats.old words.old × (len.old ≤ m.capacity) }
    ensures { PickDone floats.old words.old m len.old tolerance floats.new words.new len.new result }
{
    // As it is: each turn takes a score off, so that what counts the turns is the number of scores itself.
    while 0 < *len {
        let top = scores::load(floats, words, m, 0);
        let alive = Linked { words, m }.live(top);
        if alive & grid::above(top.area, tolerance) {
            return None;
        }
        *len -= 1;
        heap::pop(floats, words, m, *len);
        if alive {
            return Some(top);
        }
    }
    None
}

// Takes a picked point out: unlinks it, and puts its neighbours' scores on anew, the left one demoted or not.
pub fn remove(
    p: Plot,
    floats: &mut [f64],
    words: &mut [u32],
    len: &mut usize,
    s: VScore,
    demotion: Option<f64>,
)
    requires { Room p.m floats.old words.old × (len.old ≤ p.m.capacity) × Points p.m.points s.left s.current s.right }
    ensures { Removed p.entry.x.now p.entry.y.now floats.old words.old p.entry.m len.old s demotion
        floats.new words.new len.new }
{
    let m = p.m;
    links::unlink(words, m, s);
    let links = Linked { words, m };
    let before = links.previous(s.left as usize);
    let after = links.next(s.right as usize);
    let left = scoring::score_of(p, before, s.left, s.right);
    let right = scoring::score_of(p, s.left, s.right, after);
    let lower = scoring::demoted_if(left, demotion);
    scoring::put(floats, words, m, len, lower);
    scoring::put(floats, words, m, len, right);
}

// Puts on the scores of a ring from lo to hi of which every point is kept, and gives their number.
pub fn seed(p: Plot, floats: &mut [f64], words: &mut [u32], lo: usize, hi: usize) -> usize
    requires { Room p.m floats.old words.old × (p.m.points ≤ most_points) × (lo ≤ hi) × (hi ≤ p.m.points) }
    ensures { Seeded p.entry.x.now p.entry.y.now floats.old words.old p.entry.m lo hi floats.new words.new result }
{
    let mut len = 0;
    for c in lo + 1..hi.saturating_sub(1) {
        let s = scoring::score_of(p, (c - 1) as u32, c as u32, (c + 1) as u32);
        scoring::put(floats, words, p.m, &mut len, s);
    }
    len
}
