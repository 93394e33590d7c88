// Lent memory: the tests of the reasons 1 to 4 and 7 to 9, each a row of document 01's table, and equal points. Each is exact for every input.
#![tactic(auto)]

ghost use Rattle.std.specs.Prelude.{◌≡◌, ◌<◌, length};
ghost use Rattle.rule.specs.Grid.{points, at, positive};
ghost use Rattle.rule.specs.Segment.{same};
ghost use Rattle.rule.specs.Area.{area};
ghost use Rattle.rule.specs.Reasons.{lengths_differ, too_many_points, tolerance_not_finite, first_off_grid};
ghost use Rattle.rule.specs.Reasons.{output_short, scratch_short, area_short, no_such_slot};
ghost use Rattle.lent.specs.Found.{of_found};
ghost use Rattle.lent.specs.Fine.{Fine};

use grid::Coord;
use rule::{Line, Scratch, SlotNumber, WorkArea};

// As it is: x and y stay two parameters, and so do floats and words: they may have any lengths, so one value of two slices would state no fact.

// 1
pub fn lengths_differ(x: &[f64], y: &[f64]) -> bool
    ensures { result ≡ (lengths_differ x.now y.now).applies }
{
    x.len() != y.len()
}

// 2
pub fn too_many_points(x: &[f64]) -> bool
    ensures { result ≡ (too_many_points x.now).applies }
{
    let line = Line::new(x);
    Line::POINTS < line.points
}

// 3: the least place with a coordinate off the grid. Not a point index: x may be longer than a u32 can say.
pub fn first_off_grid(x: &[f64], y: &[f64]) -> Option<usize>
    ensures { of_found result ≡ first_off_grid x.now y.now }
{
    x.iter()
        .zip(y)
        .position(|(u, v)| !(grid::on_grid(*u) && grid::on_grid(*v)))
}

// 4
pub fn tolerance_not_finite(tolerance: f64) -> bool
    ensures { result ≡ (tolerance_not_finite tolerance).applies }
{
    !tolerance.is_finite()
}

// The tolerance is above zero.
pub fn tolerance_positive(tolerance: f64) -> bool
    ensures { result ≡ positive tolerance }
{
    tolerance > 0.0
}

// 7: an output of so many places, for so many.
pub fn output_short(room: usize, needed: usize) -> bool
    ensures { result ≡ (output_short room needed).applies }
{
    room < needed
}

// 8 of a thinning call. The places a point have, not those that the points need: a product might not fit.
pub fn scratch_short(floats: &[f64], words: &[u32], points: usize) -> bool
    ensures { result ≡ (scratch_short (length floats.now) (length words.now) points).applies }
{
    let scratch = Scratch::new(floats, words);
    scratch.floats / Scratch::FLOATS < points || scratch.words / Scratch::WORDS < points
}

// 8 of a call on slots.
pub fn area_short(floats: &[f64], words: &[u32]) -> bool
    ensures { result ≡ (area_short (area floats.now words.now)).applies }
{
    let area = WorkArea::new(floats, words);
    area.floats < WorkArea::FLOATS || area.words < WorkArea::WORDS
}

// 9
pub fn no_such_slot(slot: SlotNumber) -> bool
    ensures { result ≡ (no_such_slot slot.0).applies }
{
    WorkArea::SLOTS <= slot.0
}

// Lent points that the reasons 1, 2 and 3 leave.
#[derive(Clone, Copy)]
pub struct Tested<'a> {
    pub x: &'a [f64],
    pub y: &'a [f64],
    pub ghost fine: { Fine x.now y.now },
}

impl Tested<'_> {
    // Points i and j are equal by coordinates.
    pub fn same(self, i: usize, j: usize) -> bool
        requires { (i < length self.x.now) × (j < length self.x.now) }
        ensures { result ≡ same (at (points self.entry.x.now self.entry.y.now) i) (at (points self.entry.x.now self.entry.y.now) j) }
    {
        let (x, y) = (self.x, self.y);
        grid::same(Coord { x: x[i], y: y[i] }, Coord { x: x[j], y: y[j] })
    }
}
