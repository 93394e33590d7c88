// Repeated points: consecutive (geo's LineString), and anywhere (its MultiPoint).
#![tactic(auto)]

ghost use Rattle.std.specs.Prelude.{◌≡◌, ◌≤◌, ◌<◌, length};
ghost use Rattle.rule.specs.Grid.{points};
ghost use Rattle.rule.specs.Repeat.{consecutive, anywhere};
ghost use Rattle.rule.specs.Answers.{of_thinned};
ghost use Rattle.rule.specs.Whole.{Lists};
ghost use Rattle.remove_repeated_points.specs.Back.{is_new, all_new, Listed};

use lent::Tested;
use rule::{Line, Thinned};

// Keeps the first of each run of equal points.
pub fn remove_repeated_points(x: &[f64], y: &[f64], out: &mut [u32]) -> Thinned
    ensures { Lists consecutive x.now y.now out.old (of_thinned result) out.new }
{
    keep_new(x, y, 1, out)
}

// Keeps the first appearance of each point.
pub fn remove_repeated_points_anywhere(x: &[f64], y: &[f64], out: &mut [u32]) -> Thinned
    ensures { Lists anywhere x.now y.now out.old (of_thinned result) out.new }
{
    keep_new(x, y, Line::POINTS, out)
}

// Keeps each point that equals none of the `back` points before it.
fn keep_new(x: &[f64], y: &[f64], back: usize, out: &mut [u32]) -> Thinned
    ensures { Lists (all_new back) x.now y.now out.old (of_thinned result) out.new }
{
    reasons::repeat_reason(x, y, out.len())?;
    Ok(list_new(Tested { x, y }, back, out))
}

// Writes their indices, and gives their number.
fn list_new(p: Tested, back: usize, out: &mut [u32]) -> u32
    requires { length p.x.now ≤ length out.old }
    ensures { Listed back (points p.entry.x.now p.entry.y.now) (length p.entry.x.now) out.old result out.new }
{
    let mut kept = 0;
    for i in 0..p.x.len() {
        // As it is: after `iter_mut` of a slice a proof knows its length and no element, so the next place is counted.
        if is_new(p, back, i) {
            out[kept] = i as u32;
            kept += 1;
        }
    }
    kept as u32
}

fn is_new(p: Tested, back: usize, i: usize) -> bool
    requires { i < length p.x.now }
    ensures { result ≡ is_new back (points p.entry.x.now p.entry.y.now) i }
{
    // The last first: a point that repeats one mostly stands shortly behind it.
    !(i.saturating_sub(back)..i).rev().any(|j| p.same(i, j))
}
