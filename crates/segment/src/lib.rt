// Do two segments share a point, and is a present one against a new one: exactly, on coordinates of the grid. Comparisons and the signs of cross
// products decide; off the grid nothing is promised.
#![tactic(auto)]

ghost use Rattle.std.specs.Prelude.{◌≡◌, T};
ghost use Rattle.rule.specs.Grid.{on_grid, coord, point_of, turn};
ghost use Rattle.rule.specs.Segment.{one_side, overlap, meets};
ghost use Rattle.grid.specs.On.{On};
ghost use Rattle.segment.specs.Against.{is_end, reaches, AgainstIs};

use grid::Coord;

// The present segment from a to b is against the new one from l to r: no end of one equals an end of the other, and they share a point.
pub fn against(a: Coord, b: Coord, l: Coord, r: Coord) -> bool
    ensures { AgainstIs a.x a.y b.x b.y l.x l.y r.x r.y result }
{
    !is_end(a, l, r) && !is_end(b, l, r) && meets(a, b, l, r)
}

// The point p equals an end of the segment from l to r.
fn is_end(p: Coord, l: Coord, r: Coord) -> bool
    ensures { On p.x p.y → On l.x l.y → On r.x r.y → result ≡ is_end (point_of p.x p.y) (point_of l.x l.y) (point_of r.x r.y) }
{
    grid::same(p, l) || grid::same(p, r)
}

// geo's `intersects`: the closed segments from a to b and from c to d share a point. Touching counts, and zero length.
#[tactic(auto, unfolding(rule::specs::Segment::meets))]
fn meets(a: Coord, b: Coord, c: Coord, d: Coord) -> bool
    ensures { On a.x a.y → On b.x b.y → On c.x c.y → On d.x d.y
        → result ≡ meets (point_of a.x a.y) (point_of b.x b.y) (point_of c.x c.y) (point_of d.x d.y) }
{
    overlap(a.x, b.x, c.x, d.x)
        && overlap(a.y, b.y, c.y, d.y)
        && !one_side(a, b, c, d)
        && !one_side(c, d, a, b)
}

// The ranges from a to b and from c to d, each either way round, have a number in common.
#[tactic(auto, unfolding(rule::specs::Segment::overlap))]
fn overlap(a: f64, b: f64, c: f64, d: f64) -> bool
    ensures { T (on_grid a) → T (on_grid b) → T (on_grid c) → T (on_grid d) → result ≡ overlap (coord a) (coord b) (coord c) (coord d) }
{
    reaches(a, b, c, d) && reaches(c, d, a, b)
}

// One of a and b is at most one of c and d.
fn reaches(a: f64, b: f64, c: f64, d: f64) -> bool
    ensures { T (on_grid a) → T (on_grid b) → T (on_grid c) → T (on_grid d) → result ≡ reaches (coord a) (coord b) (coord c) (coord d) }
{
    a <= c || a <= d || b <= c || b <= d
}

// The points c and d lie strictly on one side of the line from a to b.
fn one_side(a: Coord, b: Coord, c: Coord, d: Coord) -> bool
    ensures { On a.x a.y → On b.x b.y → On c.x c.y → On d.x d.y
        → result ≡ one_side (turn (point_of a.x a.y) (point_of b.x b.y) (point_of c.x c.y))
        (turn (point_of a.x a.y) (point_of b.x b.y) (point_of d.x d.y)) }
{
    let u = grid::turn(a, b, c);
    let v = grid::turn(a, b, d);
    (0.0 < u && 0.0 < v) || (u < 0.0 && v < 0.0)
}
