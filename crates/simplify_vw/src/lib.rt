// Plain thinning of a line, whole calls: the index rule (geo's simplify_vw_idx) and the point rule (its simplify_vw).
// Any two results that a call's statement allows for the same input are equal: `thins_settled` of rule/proofs/Settled.
#![tactic(auto)]

ghost use Rattle.std.specs.Prelude.{◌≡◌, ◌≤◌, length};
ghost use Rattle.rule.specs.Sizes.{most_points, scratch_floats, scratch_words};
ghost use Rattle.rule.specs.Grid.{points};
ghost use Rattle.rule.specs.Plain.{indices, index_rule, point_rule};
ghost use Rattle.rule.specs.Answers.{of_thinned};
ghost use Rattle.rule.specs.Whole.{lent, Thins};
ghost use Rattle.layout.specs.Layout.{Room};
ghost use Rattle.lent.specs.Fine.{Ready};
ghost use Rattle.ending.specs.Keeps.{Keeps};
ghost use Rattle.simplify_vw.specs.Calls.{Ran};

use layout::{Layout, Plot};
use rule::Thinned;

// The index rule: a tolerance of 0 removes flat points, and a negative one nothing.
// As it is: the C interface passes these six one by one, here and in `simplify_vw`.
pub fn simplify_vw_idx(
    x: &[f64],
    y: &[f64],
    tolerance: f64,
    out: &mut [u32],
    floats: &mut [f64],
    words: &mut [u32],
) -> Thinned
    ensures { Thins index_rule x.now y.now tolerance (lent out.old floats.old words.old)
        (of_thinned result) (lent out.new floats.new words.new) }
{
    reasons::thin_reason(x, y, tolerance, out.len(), floats, words)?;
    Ok(visvalingam_indices(x, y, tolerance, out, floats, words))
}

// The point rule: a tolerance of zero or less keeps every point.
pub fn simplify_vw(
    x: &[f64],
    y: &[f64],
    tolerance: f64,
    out: &mut [u32],
    floats: &mut [f64],
    words: &mut [u32],
) -> Thinned
    ensures { Thins point_rule x.now y.now tolerance (lent out.old floats.old words.old)
        (of_thinned result) (lent out.new floats.new words.new) }
{
    reasons::thin_reason(x, y, tolerance, out.len(), floats, words)?;
    if lent::tolerance_positive(tolerance) {
        return Ok(visvalingam_indices(x, y, tolerance, out, floats, words));
    }
    Ok(all_indices(x.len(), out, floats, words))
}

// Lists what the index rule keeps, and gives how many.
// As it is: a struct of the three `&mut` slices is no plainer, since each contract would have to say that its fields stay the same references.
fn visvalingam_indices(
    x: &[f64],
    y: &[f64],
    tolerance: f64,
    out: &mut [u32],
    floats: &mut [f64],
    words: &mut [u32],
) -> u32
    requires { Ready x.now y.now tolerance (lent out.old floats.old words.old) }
    ensures { Keeps (length x.now) (index_rule (points x.now y.now) tolerance)
        (lent out.old floats.old words.old) result (lent out.new floats.new words.new) }
{
    let m = Layout::scratch(x.len());
    remove_all(Plot { x, y, m }, floats, words, tolerance);
    ending::finish(x.len(), out, floats, words)
}

// Lists every point, and gives how many.
fn all_indices(points: usize, out: &mut [u32], floats: &mut [f64], words: &mut [u32]) -> u32
    requires { (points ≤ most_points) × (points ≤ length out.old) × (scratch_floats points ≤ length floats.old) × (scratch_words points ≤ length words.old) }
    ensures { Keeps points (indices 0 points) (lent out.old floats.old words.old)
        result (lent out.new floats.new words.new) }
{
    links::link(words, Layout::scratch(points), 0, points);
    ending::finish(points, out, floats, words)
}

// Links the points and makes every removal.
fn remove_all(p: Plot, floats: &mut [f64], words: &mut [u32], tolerance: f64)
    requires { Room p.m floats.old words.old × (p.m.points ≤ most_points) }
    ensures { Ran index_rule p.entry.x.now p.entry.y.now floats.old words.old p.entry.m tolerance floats.new words.new }
{
    links::link(words, p.m, 0, p.m.points);
    let mut len = thin::seed(p, floats, words, 0, p.m.points);
    // There are fewer removals than points.
    for _ in 0..p.m.points {
        if thin::step(p, floats, words, &mut len, tolerance).is_none() {
            return;
        }
    }
}
