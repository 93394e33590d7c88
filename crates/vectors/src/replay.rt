// A vector replayed: its call is made on memory full of guards, with room for more points and rings than any vector has.
use crate::call::Call;
use crate::list::{Lengths, Refusal, Vector};
use numbers::{Cursor, Readable, least};
use rule::Scratch;

const POINTS: usize = 4112;

const RINGS: usize = 80;

const FLOATS: usize = Scratch::FLOATS * POINTS;

const WORDS: usize = Scratch::WORDS * POINTS;

// What is lent is full of these.
const GUARD: u32 = 3735928559;

const FLOAT_GUARD: f64 = 1.5;

// Whether the call answers, and leaves what it was lent, as the rest of the vector's line has it.
pub(crate) fn agrees(call: Call, vector: &Vector, line: &mut Cursor<'_>) -> bool {
    let given = Given::read(&vector.lent, line);
    let lists = Lists::read(vector, line);
    if !line.is_end() {
        return false;
    }
    let left = Left::by(call, &vector.lent, &given);
    left.answer == vector.answer && left.lists == lists && left.is_zeroed(vector.zeroed())
}

// What a call reads.
#[derive(Drop)]
struct Given {
    tolerance: f64,
    x: [f64; POINTS],
    y: [f64; POINTS],
    rings: [u32; RINGS],
}

impl Given {
    fn read(lent: &Lengths, from: &mut Cursor<'_>) -> Given {
        let mut given = Given {
            tolerance: std::num::f64_from_bits_with_nan(u64::read(from)),
            x: [FLOAT_GUARD; POINTS],
            y: [FLOAT_GUARD; POINTS],
            rings: [GUARD; RINGS],
        };
        from.read_into(lent.xs, &mut given.x);
        from.read_into(lent.ys, &mut given.y);
        from.read_into(lent.rings, &mut given.rings);
        given
    }
}

// The list of indices and the ring table that a call writes.
#[derive(PartialEq, Drop)]
struct Lists {
    kept: [u32; POINTS],
    rings: [u32; RINGS],
}

impl Lists {
    fn new() -> Lists {
        Lists {
            kept: [GUARD; POINTS],
            rings: [GUARD; RINGS],
        }
    }

    fn read(vector: &Vector, from: &mut Cursor<'_>) -> Lists {
        let mut lists = Lists::new();
        from.read_into(vector.kept(), &mut lists.kept);
        from.read_into(vector.kept_rings(), &mut lists.rings);
        lists
    }
}

// What a call answers, and leaves where it may write.
#[derive(Drop)]
struct Left {
    answer: Result<u32, Refusal>,
    lists: Lists,
    floats: [f64; FLOATS],
    words: [u32; WORDS],
}

impl Left {
    // Makes the call on just so much memory.
    fn by(call: Call, lent: &Lengths, given: &Given) -> Left {
        let mut lists = Lists::new();
        let mut floats = [FLOAT_GUARD; FLOATS];
        let mut words = [GUARD; WORDS];
        let tolerance = given.tolerance;
        let x = &given.x[..least(lent.xs, POINTS)];
        let y = &given.y[..least(lent.ys, POINTS)];
        let rings = &given.rings[..least(lent.rings, RINGS)];
        let out = &mut lists.kept[..least(lent.out, POINTS)];
        let ring_out = &mut lists.rings[..least(lent.table, RINGS)];
        let f = &mut floats[..least(lent.floats, FLOATS)];
        let w = &mut words[..least(lent.words, WORDS)];
        let answer = match call {
            Call::SimplifyVwIdx => simplify_vw::simplify_vw_idx(x, y, tolerance, out, f, w),
            Call::SimplifyVw => simplify_vw::simplify_vw(x, y, tolerance, out, f, w),
            Call::SimplifyVwPreserve => {
                simplify_vw_preserve::simplify_vw_preserve(x, y, tolerance, out, f, w)
            }
            Call::SimplifyVwPreservePolygon => simplify_vw_preserve::simplify_vw_preserve_polygon(
                x, y, tolerance, rings, out, ring_out, f, w,
            ),
            Call::RemoveRepeatedPoints => remove_repeated_points::remove_repeated_points(x, y, out),
            Call::RemoveRepeatedPointsAnywhere => {
                remove_repeated_points::remove_repeated_points_anywhere(x, y, out)
            }
        };
        Left {
            answer: answer.map_err(Refusal::from),
            lists,
            floats,
            words,
        }
    }

    // Whether the scratch is zeroed for so many points, and no more of it was written.
    fn is_zeroed(&self, points: u32) -> bool {
        let points = points as usize;
        let is_zero = |v: &f64| *v == 0.0 && v.is_sign_positive();
        zeroed(&self.floats, Scratch::FLOATS * points, FLOAT_GUARD, is_zero)
            && zeroed(&self.words, Scratch::WORDS * points, GUARD, |v| *v == 0)
    }
}

// Zeros up to this place, and guards after it.
fn zeroed<T: PartialEq + Drop, F: FnMut(&T) -> bool>(
    s: &[T],
    end: usize,
    guard: T,
    is_zero: F,
) -> bool
    requires { F.IsAlwaysCallable is_zero }
{
    let (front, rest) = s.split_at(s.len().min(end));
    front.iter().all(is_zero) && rest.iter().all(|v| *v == guard)
}
