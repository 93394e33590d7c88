// Whole coordinates in f64: the grid test, equal points, the area of a triangle, and its comparison with the tolerance.
#![tactic(auto)]

ghost use Rattle.std.specs.Prelude.{◌≡◌};
ghost use Rattle.std.specs.Float.Ieee.{lt};
ghost use Rattle.rule.specs.Grid.{on_grid, point_of, area2, half};
ghost use Rattle.rule.specs.Segment.{same};
ghost use Rattle.grid.specs.On.{On};
ghost use Rattle.grid.specs.Cross.{cross};

// 1.5 * 2^52. A sum of it and a number of the grid's size lies between 2^52 and 2^53, where every f64 is whole.
const SHIFT: f64 = 6755399441055744.0;

// A point by its coordinates.
#[derive(Clone, Copy, PartialEq)]
pub struct Coord {
    pub x: f64,
    pub y: f64,
}

// v is a whole number from -2^24 to 2^24.
pub fn on_grid(v: f64) -> bool
    ensures { result ≡ on_grid v }
{
    -16777217.0 < v && v < 16777217.0 && (v + SHIFT) - SHIFT == v
}

// Equal by coordinates: -0.0 and 0.0 are.
pub fn same(a: Coord, b: Coord) -> bool
    ensures { On a.x a.y → On b.x b.y → result ≡ same (point_of a.x a.y) (point_of b.x b.y) }
{
    a == b
}

// The cross product of the sides from a to b and from a to c: exact where the points are on the grid, twice the area with a sign.
pub fn turn(a: Coord, b: Coord, c: Coord) -> f64
    ensures { result ≡ cross a.x a.y b.x b.y c.x c.y }
{
    (b.x - a.x) * (c.y - a.y) - (b.y - a.y) * (c.x - a.x)
}

// The area of the triangle a b c: exact where the points are on the grid.
pub fn area(a: Coord, b: Coord, c: Coord) -> f64
    ensures { On a.x a.y → On b.x b.y → On c.x c.y → result ≡ half (area2 (point_of a.x a.y) (point_of b.x b.y) (point_of c.x c.y)) }
{
    turn(a, b, c).abs() * 0.5
}

// The area is greater than the tolerance.
pub fn above(area: f64, tolerance: f64) -> bool
    ensures { result ≡ lt tolerance area }
{
    area > tolerance
}
