// The least and the greatest coordinates of some points, by value: widened by a point, and compared with others.
#![tactic(auto)]

ghost use Rattle.std.specs.Prelude.{◌≡◌};
ghost use Rattle.bounds.specs.Bounds.{lesser, greater, of_none, widened, apart};

use grid::Coord;

// The grid's end.
const REACH: f64 = 16777216.0;

#[derive(Clone, Copy)]
pub struct Bounds {
    pub west: f64,
    pub east: f64,
    pub south: f64,
    pub north: f64,
}

impl Bounds {
    // Of no point: each side stands at the grid's other end, so that any point moves it.
    pub fn of_none() -> Bounds
        ensures { result ≡ of_none }
    {
        Bounds {
            west: REACH,
            east: -REACH,
            south: REACH,
            north: -REACH,
        }
    }

    // With one point more.
    #[tactic(auto, unfolding(crate::specs::Bounds::widened))]
    pub fn widened(self, c: Coord) -> Bounds
        ensures { result ≡ widened self c.x c.y }
    {
        Bounds {
            west: lesser(c.x, self.west),
            east: greater(c.x, self.east),
            south: lesser(c.y, self.south),
            north: greater(c.y, self.north),
        }
    }

    // A side of one lies past a side of the other, so that no point lies within both. Sides that touch do not.
    #[tactic(auto, unfolding(crate::specs::Bounds::apart))]
    pub fn apart(self, other: Bounds) -> bool
        ensures { result ≡ apart self other }
    {
        !(other.west <= self.east)
            || !(self.west <= other.east)
            || !(other.south <= self.north)
            || !(self.south <= other.north)
    }
}

// As it is: f64's min and max leave open which of -0.0 and 0.0 comes out, and the contract of widened says which.
#[tactic(auto, unfolding(crate::specs::Bounds::lesser))]
fn lesser(u: f64, v: f64) -> f64
    ensures { result ≡ lesser u v }
{
    if u <= v { u } else { v }
}

#[tactic(auto, unfolding(crate::specs::Bounds::greater))]
fn greater(u: f64, v: f64) -> f64
    ensures { result ≡ greater u v }
{
    if v <= u { u } else { v }
}
