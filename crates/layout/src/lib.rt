// Where the runs of lent memory start: one layout for the scratch of a whole call and for a slot's part.
#![tactic(auto)]

ghost use Rattle.std.specs.Prelude.{◌≡◌, ◌≤◌, ◌<◌};
ghost use Rattle.rule.specs.Sizes.{most_points};
ghost use Rattle.layout.specs.Layout.{scratch_of, slot_of};
ghost use Rattle.layout.specs.Points.{from, HasPoints};

use grid::Coord;
use rule::Line;

// The heap has its areas from the start of the floats, and `capacity` places of three words each from `heap` on. The links of `points` points are three
// runs of so many words, from `links` on: the previous point, the next one, the mark of a removed one. The coordinates start at x and at y.
// As it is: `slot` takes any number of points, whatever a part holds, so that at most 4,096 of them is no fact of the type.
#[derive(Clone, Copy)]
pub struct Layout {
    pub heap: usize,
    pub capacity: usize,
    pub links: usize,
    pub points: usize,
    pub x: usize,
    pub y: usize,
}

impl Layout {
    // Words of a slot's part before its heap: open, number of points, number of scores, and free ones.
    pub const HEADER: usize = 16;

    // A whole call: coordinates are read from the lent points.
    pub fn scratch(points: usize) -> Layout
        requires { points ≤ most_points }
        ensures { result ≡ scratch_of points }
    {
        Layout {
            heap: 0,
            capacity: 2 * points,
            links: 9 * points,
            points,
            x: 0,
            y: 0,
        }
    }

    // A slot's part: runs for the most points, and in the floats after the heap's areas and the tolerance the coordinates.
    pub fn slot(points: usize) -> Layout
        ensures { result ≡ slot_of points }
    {
        Layout {
            heap: Layout::HEADER,
            capacity: 3 * Line::POINTS - 6,
            links: Layout::HEADER + 9 * Line::POINTS,
            points,
            x: 3 * Line::POINTS,
            y: 4 * Line::POINTS,
        }
    }
}

// The points that a layout places, by their coordinates in lent memory.
#[derive(Clone, Copy)]
pub struct Plot<'a> {
    pub x: &'a [f64],
    pub y: &'a [f64],
    pub m: Layout,
    pub ghost has_points: { HasPoints m x.now y.now },
}

impl<'a> Plot<'a> {
    // Point i.
    pub fn at(self, i: usize) -> Coord
        requires { i < self.m.points }
        ensures { (result.x ≡ from self.entry.x.now self.entry.m.x i) × (result.y ≡ from self.entry.y.now self.entry.m.y i) }
    {
        Coord {
            x: self.x[self.m.x + i],
            y: self.y[self.m.y + i],
        }
    }
}
