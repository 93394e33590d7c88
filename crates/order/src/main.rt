// Runs the plain rule on a line of 4,096 points with many ties until nothing is left to remove, one step at a time in lent memory. Prints how many
// removals there were and a sum over their indices and areas in order. tools/expect-order works out by exact arithmetic what must be printed.
#![tactic(auto)]

ghost use Rattle.std.specs.Prelude.{◌≤◌};
ghost use Rattle.rule.specs.Sizes.{most_points};
ghost use Rattle.layout.specs.Layout.{Room};

use layout::{Layout, Plot};
use rule::{Line, Scratch};
use std::io;

// As many points as a line may have, and a scratch for them.
const POINTS: usize = Line::POINTS;

const FLOATS: usize = Scratch::FLOATS * POINTS;

const WORDS: usize = Scratch::WORDS * POINTS;

// The points are drawn from a square of so many a side.
const SIDE: u64 = 32;

// The next drawn number is the last one times FACTOR and TERM more, modulo RANGE. Its lower digits are dropped by DROP.
const RANGE: u64 = 2147483648;

const FACTOR: u64 = 1103515245;

const TERM: u64 = 12345;

const DROP: u64 = 65536;

// What comes next is added to the sum times BASE, modulo PRIME.
const PRIME: u64 = 4294967291;

const BASE: u64 = 1664525;

// Above every area.
const TOLERANCE: f64 = 1e300;

// How many removals, and the sum of their order.
#[derive(Clone, Copy, Default)]
struct Order {
    removals: u64,
    sum: u64,
}

fn main(rt: HostRuntime) -> io::Result<()> {
    let mut x = [0.0; POINTS];
    let mut y = [0.0; POINTS];
    let mut floats = [0.0; FLOATS];
    let mut words = [0; WORDS];
    draw(&mut x, &mut y);
    let p = Plot {
        x: &x,
        y: &y,
        m: Layout::scratch(POINTS),
    };
    let made = remove_all(p, &mut floats, &mut words);
    println!(&rt; "removals {}", made.removals)?;
    println!(&rt; "order {}", made.sum)
}

fn draw(x: &mut [f64], y: &mut [f64]) {
    let mut drawn = 0;
    for (u, v) in x.iter_mut().zip(y) {
        *u = coordinate(&mut drawn);
        *v = coordinate(&mut drawn);
    }
}

fn coordinate(drawn: &mut u64) -> f64 {
    *drawn = (*drawn % RANGE * FACTOR + TERM) % RANGE;
    std::num::nearest_u64_to_f64(*drawn / DROP % SIDE)
}

fn remove_all(p: Plot, floats: &mut [f64], words: &mut [u32]) -> Order
    requires { Room p.m floats.old words.old × (p.m.points ≤ most_points) }
{
    let n = p.m.points;
    links::link(words, p.m, 0, n);
    let mut len = thin::seed(p, floats, words, 0, n);
    let mut order = Order::default();
    for _ in 0..n {
        let Some(removal) = thin::step(p, floats, words, &mut len, TOLERANCE) else {
            break;
        };
        order.removals += 1;
        order.sum = fold(
            fold(order.sum, u64::from(removal.index)),
            bits::of(removal.area),
        );
    }
    order
}

fn fold(sum: u64, next: u64) -> u64 {
    (sum % PRIME * BASE + next % PRIME) % PRIME
}
