// A slot's part of the work area: begun, stepped, listed, whatever it holds.
#![tactic(auto)]

ghost use Rattle.std.specs.Prelude.{◌≤◌, ◌+◌, ◌≡◌, true, length};
ghost use Rattle.rule.specs.Sizes.{slot_floats, slot_words};
ghost use Rattle.rule.specs.Grid.{points, is_finite};
ghost use Rattle.rule.specs.Plain.{all};
ghost use Rattle.rule.specs.Answers.{of_step, of_listing};
ghost use Rattle.rule.specs.Area.{area};
ghost use Rattle.lent.specs.Fine.{Fine};
ghost use Rattle.part.specs.Rep.{Rep};
ghost use Rattle.part.specs.Parts.{StepsPart, ReadsPart, Copied};

use layout::{Layout, Plot};
use links::Linked;
use rule::{Line, Listing, PointIndex, Reason, Step};

// Begins a line of points on the grid in a part, whatever it holds.
pub fn fill(floats: &mut [f64], words: &mut [u32], x: &[f64], y: &[f64], tolerance: f64)
    requires { (length floats.old ≡ slot_floats) × (length words.old ≡ slot_words) × Fine x.now y.now × (is_finite tolerance ≡ true) }
    ensures { Rep (area floats.new words.new) (points x.now y.now) tolerance
        (all (points x.now y.now)) }
{
    let n = x.len();
    let m = Layout::slot(n);
    floats[m.x - 1] = tolerance;
    copy(floats, m.x, x);
    copy(floats, m.y, y);
    // The scores are made from the lent points.
    let p = Plot {
        x,
        y,
        m: Layout { x: 0, y: 0, ..m },
    };
    links::link(words, p.m, 0, n);
    let len = thin::seed(p, floats, words, 0, n);
    words[0] = 1;
    words[1] = n as u32;
    words[2] = len as u32;
}

// Copies all of `from` to the places from `at` on.
// As it is: `copy_from_slice` would have the archive need memmove, and the unit has memset and memcpy alone (tools/arm64).
fn copy(to: &mut [f64], at: usize, from: &[f64])
    requires { at + length from.now ≤ length to.old }
    ensures { Copied to.old at from.now (length from.now) to.new }
{
    for i in 0..from.len() {
        to[at + i] = from[i];
    }
}

// Makes one removal in a part, whatever it holds.
pub fn advance(floats: &mut [f64], words: &mut [u32]) -> Step
    requires { (length floats.old ≡ slot_floats) × (length words.old ≡ slot_words) }
    ensures { StepsPart (area floats.old words.old) (of_step result) (area floats.new words.new) }
{
    let n = words[1] as usize;
    let mut len = words[2] as usize;
    let m = Layout::slot(n);
    if Line::POINTS < n || m.capacity < len {
        return Step::Finished;
    }
    let tolerance = floats[m.x - 1];
    // The areas change, and the coordinates behind them are read.
    let (areas, coordinates) = floats.split_at_mut(m.x);
    let (x, y) = coordinates.split_at(m.y - m.x);
    let p = Plot {
        x,
        y,
        m: Layout { x: 0, y: 0, ..m },
    };
    let removal = thin::step(p, areas, words, &mut len, tolerance);
    words[2] = len as u32;
    match removal {
        None => Step::Finished,
        Some(r) => Step::Removed(PointIndex(r.index), r.area),
    }
}

// Lists the points left of a part, whatever it holds.
pub fn list(words: &[u32], out: &mut [u32]) -> Listing
    requires { length words.now ≡ slot_words }
    ensures { ReadsPart words.now out.old (of_listing result) out.new }
{
    let n = words[1] as usize;
    if Line::POINTS < n {
        return Ok(0);
    }
    let m = Layout::slot(n);
    let links = Linked { words, m };
    if lent::output_short(out.len(), links.count_kept()) {
        return Err(Reason::OutputShort);
    }
    Ok(links.list_kept(out) as u32)
}
