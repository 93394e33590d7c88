// A point's score from its neighbours in lent memory, demoted or not, and put on the heap.
#![tactic(auto)]

ghost use Rattle.std.specs.Prelude.{◌≡◌};
ghost use Rattle.rule.specs.Grid.{half};
ghost use Rattle.layout.specs.Layout.{Room};
ghost use Rattle.scoring.specs.Plot.{demoted_if, ScoredAs};
ghost use Rattle.scoring.specs.Putting.{PutIs};

use layout::{Layout, Plot};
use vscore::VScore;

// The score of a, b and c, if they are points. Nothing else here reads coordinates.
pub fn score_of(p: Plot, a: u32, b: u32, c: u32) -> Option<VScore>
    ensures { ScoredAs p.entry.x.now p.entry.y.now p.entry.m a b c half result }
{
    let n = p.m.points;
    let l = a as usize;
    let i = b as usize;
    let r = c as usize;
    if n <= l || n <= i || n <= r {
        return None;
    }
    Some(VScore::new(a, b, c, grid::area(p.at(l), p.at(i), p.at(r))))
}

// The score, with minus the tolerance as its area if it is to be demoted by one.
pub fn demoted_if(scored: Option<VScore>, demotion: Option<f64>) -> Option<VScore>
    ensures { result ≡ demoted_if demotion scored }
{
    match demotion {
        None => scored,
        Some(tolerance) => scored.map(|s| s.demoted(tolerance)),
    }
}

// Puts a score on, if there is one and room for it. The number of scores is kept in len.
// As it is: the two slices and their layout are three parameters, since behind a `&mut` struct each contract would have to say that layout and lengths stay.
pub fn put(
    floats: &mut [f64],
    words: &mut [u32],
    m: Layout,
    len: &mut usize,
    scored: Option<VScore>,
)
    requires { Room m floats.old words.old }
    ensures { PutIs floats.old words.old m len.old floats.new words.new len.new scored }
{
    if let Some(s) = scored {
        if *len < m.capacity {
            heap::push(floats, words, m, *len, s);
            *len += 1;
        }
    }
}
