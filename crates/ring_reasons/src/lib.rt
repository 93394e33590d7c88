// The reasons of a polygon's call, in document 01's order, and the tests of its ring table and outputs.
#![tactic(auto)]

ghost use Rattle.std.specs.Prelude.{◌≡◌, not, ◌-◌, ◌<◌, ◌≤◌, length};
ghost use Rattle.rule.specs.Grid.{points};
ghost use Rattle.rule.specs.Plain.{indices};
ghost use Rattle.rule.specs.Rings.{bad_table, rings_from, is_closed, all_closed};
ghost use Rattle.rule.specs.Answers.{of_outcome};
ghost use Rattle.rule.specs.Reasons.{first_off_grid, outputs_short, polygon_reason};
ghost use Rattle.reasons.specs.Verdict.{verdict};
ghost use Rattle.ring_reasons.specs.Table.{Cuts};

use lent::Tested;
use rule::{Outcome, Polygon, Reason};

// 1, 2, 4, 3, 5, 6, 7, 8.
pub fn polygon_reason(
    x: &[f64],
    y: &[f64],
    tolerance: f64,
    rings: &[u32],
    room: usize,
    ends: usize,
    floats: &[f64],
    words: &[u32],
) -> Outcome
    ensures { of_outcome result ≡ verdict (polygon_reason x.now y.now tolerance rings.now room ends
        (length floats.now) (length words.now)) (first_off_grid x.now y.now) }
{
    reasons::line_reason(x, y, tolerance)?;
    if table_bad(rings, x.len()) {
        return Err(Reason::RingTable);
    }
    if some_open(Tested { x, y }, rings) {
        return Err(Reason::RingNotClosed);
    }
    reasons::memory_reason(
        outputs_short(room, x.len(), ends, rings.len()),
        floats,
        words,
        x.len(),
    )
}

// 5: the table is empty, longer than 64 or decreasing, or its last entry is not the number of points.
fn table_bad(rings: &[u32], points: usize) -> bool
    ensures { result ≡ bad_table points rings.now }
{
    let table = Polygon::new(rings);
    Polygon::RINGS < table.rings
        || !rings.is_sorted()
        || rings.last().is_none_or(|end| *end as usize != points)
}

// 6: some ring has points, and its first and last differ.
// As it is: the table cuts the points of another parameter, here and in simplify_vw_preserve, so no type of the table alone can say so.
fn some_open(p: Tested, rings: &[u32]) -> bool
    requires { Cuts (length p.x.now) rings.now }
    ensures { result ≡ not (all_closed (points p.entry.x.now p.entry.y.now) (rings_from 0 rings.now)) }
{
    let mut lo = 0;
    for &end in rings {
        let hi = end as usize;
        if is_open(p, lo, hi) {
            return true;
        }
        lo = hi;
    }
    false
}

// The ring from lo to hi.
// As it is: two numbers, as in links and thin_ring. Each use takes one end alone, so a range would be taken apart at once.
fn is_open(p: Tested, lo: usize, hi: usize) -> bool
    requires { (lo ≤ hi) × (hi ≤ length p.x.now) }
    ensures { result ≡ not (is_closed (points p.entry.x.now p.entry.y.now) (indices lo (hi - lo))) }
{
    lo < hi && !p.same(lo, hi - 1)
}

// 7: for so many points and rings.
fn outputs_short(room: usize, needed: usize, ends: usize, rings: usize) -> bool
    ensures { result ≡ (outputs_short room needed ends rings).applies }
{
    room < needed || ends < rings
}
