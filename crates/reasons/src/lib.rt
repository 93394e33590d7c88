// The reasons of a whole call, in document 01's order.
#![tactic(auto)]

ghost use Rattle.std.specs.Prelude.{◌≡◌, length};
ghost use Rattle.rule.specs.Answers.{of_outcome};
ghost use Rattle.rule.specs.Reasons.{first_off_grid, first_of, line_rows, repeat_reason, thin_reason};
ghost use Rattle.reasons.specs.Verdict.{verdict, memory_rows};

use rule::{Outcome, PointIndex, Reason};

// As it is: x and y stay two parameters, and so do floats and words: they may have any lengths, so one value of two slices would state no fact.

// Of a line with a tolerance: 1, 2, 4, 3.
pub fn line_reason(x: &[f64], y: &[f64], tolerance: f64) -> Outcome
    ensures { of_outcome result ≡ verdict (first_of (line_rows x.now y.now tolerance)) (first_off_grid x.now y.now) }
{
    if lent::lengths_differ(x, y) {
        return Err(Reason::LengthsDiffer);
    }
    if lent::too_many_points(x) {
        return Err(Reason::TooManyPoints);
    }
    if lent::tolerance_not_finite(tolerance) {
        return Err(Reason::ToleranceNotFinite);
    }
    if let Some(i) = lent::first_off_grid(x, y) {
        return Err(Reason::OffGrid(PointIndex(i as u32)));
    }
    Ok(())
}

// Of the calls on repeated points: 1, 2, 3, 7. They take no tolerance: 0 is one that 4 lets pass.
pub fn repeat_reason(x: &[f64], y: &[f64], room: usize) -> Outcome
    ensures { of_outcome result ≡ verdict (repeat_reason x.now y.now room) (first_off_grid x.now y.now) }
{
    line_reason(x, y, 0.0)?;
    if lent::output_short(room, x.len()) {
        return Err(Reason::OutputShort);
    }
    Ok(())
}

// Of a call that thins a line, with an output of so many places and scratch: 1, 2, 4, 3, 7, 8.
pub fn thin_reason(
    x: &[f64],
    y: &[f64],
    tolerance: f64,
    room: usize,
    floats: &[f64],
    words: &[u32],
) -> Outcome
    ensures { of_outcome result ≡ verdict (thin_reason x.now y.now tolerance room (length floats.now) (length words.now))
        (first_off_grid x.now y.now) }
{
    line_reason(x, y, tolerance)?;
    memory_reason(lent::output_short(room, x.len()), floats, words, x.len())
}

// Of what is lent to a call that thins so many points, whose output is short or not: 7, 8.
pub fn memory_reason(short: bool, floats: &[f64], words: &[u32], points: usize) -> Outcome
    ensures { (off : _) → of_outcome result ≡ verdict (first_of (memory_rows short (length floats.now) (length words.now) points)) off }
{
    if short {
        return Err(Reason::OutputShort);
    }
    if lent::scratch_short(floats, words, points) {
        return Err(Reason::MemoryShort);
    }
    Ok(())
}
