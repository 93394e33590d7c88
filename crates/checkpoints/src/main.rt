// Runs the leaves and the answers at corner values and prints what they give, one case a line. A float is printed as its 64 bits.
// tools/expect-checkpoints works out by exact arithmetic what must be printed.
#![tactic(auto)]

use grid::Coord;
use rule::{PointIndex, Reason, Slot, SlotNumber};
use std::{fmt, io};
use vscore::VScore;

fn main(rt: HostRuntime) -> io::Result<()> {
    grid_cases(&rt)?;
    area_cases(&rt)?;
    largest_cases(&rt)?;
    above_cases(&rt)?;
    score_cases(&rt)?;
    reason_cases(&rt)?;
    slot_cases(&rt)
}

fn grid_cases(rt: &impl Print) -> io::Result<()> {
    on_grid(rt, 0.0)?;
    on_grid(rt, -0.0)?;
    on_grid(rt, 1.0)?;
    on_grid(rt, -1.0)?;
    on_grid(rt, 0.5)?;
    on_grid(rt, -0.5)?;
    on_grid(rt, 16777215.0)?;
    on_grid(rt, 16777215.5)?;
    on_grid(rt, 16777216.0)?;
    on_grid(rt, -16777216.0)?;
    on_grid(rt, 16777216.000000004)?;
    on_grid(rt, 16777217.0)?;
    on_grid(rt, -16777217.0)?;
    on_grid(rt, 16777218.0)?;
    on_grid(rt, 9007199254740992.0)?;
    on_grid(rt, 9223372036854775808.0)?;
    on_grid(rt, -9223372036854775808.0)?;
    on_grid(rt, 5e-324)?;
    on_grid(rt, -2.2250738585072014e-308)?;
    on_grid(rt, 1.7976931348623157e308)?;
    on_grid(rt, 1.0 / 0.0)?;
    on_grid(rt, -1.0 / 0.0)?;
    on_grid(rt, 0.0 / 0.0)
}

fn area_cases(rt: &impl Print) -> io::Result<()> {
    area(rt, 0.0, 0.0, 4.0, 0.0, 0.0, 3.0)?;
    area(rt, 0.0, 0.0, 0.0, 3.0, 4.0, 0.0)?;
    area(rt, 5.0, 2.0, 3.0, 8.0, 7.0, 25.0)?;
    area(rt, 3.0, 8.0, 6.0, 20.0, 7.0, 25.0)?;
    area(rt, 0.0, 0.0, 1.0, 1.0, 2.0, 1.0)?;
    // flat, where the cross product comes out as -0.0
    area(rt, 0.0, 0.0, -1.0, 0.0, 0.0, 0.0)?;
    area(rt, 0.0, 0.0, 0.0, -1.0, 0.0, 0.0)?;
    area(rt, -0.0, -0.0, -0.0, -0.0, -0.0, -0.0)?;
    area(rt, 0.0, 0.0, 1.0, 1.0, 2.0, 2.0)
}

fn largest_cases(rt: &impl Print) -> io::Result<()> {
    // 2^49
    area(
        rt,
        -16777216.0,
        -16777216.0,
        16777216.0,
        -16777216.0,
        16777216.0,
        16777216.0,
    )?;
    area(
        rt,
        -16777216.0,
        -16777216.0,
        -16777216.0,
        16777216.0,
        16777216.0,
        16777216.0,
    )?;
    area(
        rt,
        -16777216.0,
        -16777216.0,
        16777216.0,
        16777216.0,
        16777215.0,
        16777215.0,
    )?;
    // a little less
    area(
        rt,
        -16777216.0,
        -16777216.0,
        16777216.0,
        -16777215.0,
        16777215.0,
        16777216.0,
    )
}

fn above_cases(rt: &impl Print) -> io::Result<()> {
    above(rt, 29.0, 30.0)?;
    above(rt, 29.0, 29.0)?;
    above(rt, 29.0, 28.5)?;
    above(rt, 29.0, 28.999999999999996)?;
    above(rt, 0.0, 0.0)?;
    above(rt, 0.0, -0.0)?;
    above(rt, 0.0, -5e-324)?;
    above(rt, 0.5, 5e-324)?;
    above(rt, 669.0, 668.6)?;
    above(rt, 668.5, 668.6)?;
    above(rt, 562949953421312.0, 562949953421312.0)?;
    above(rt, 562949953421312.0, 562949953421311.94)?;
    above(rt, 562949953421312.0, 1.7976931348623157e308)
}

fn score_cases(rt: &impl Print) -> io::Result<()> {
    let small = VScore::new(0, 1, 2, 1.5);
    let level = VScore::new(1, 2, 3, 1.5);
    let large = VScore::new(2, 3, 4, 2.0);
    let flat = VScore::new(3, 4, 5, 0.0);
    sooner(rt, small, large)?;
    sooner(rt, large, small)?;
    sooner(rt, small, level)?;
    sooner(rt, level, small)?;
    sooner(rt, small, small)?;
    sooner(rt, flat, small)?;
    // demoted at the least tolerance above zero, and at a large one: before every area, flat ones too
    sooner(rt, large.demoted(5e-324), flat)?;
    sooner(rt, flat, large.demoted(5e-324))?;
    sooner(rt, large.demoted(1.7976931348623157e308), flat)?;
    sooner(rt, large.demoted(2.0), small.demoted(2.0))?;
    sooner(rt, small.demoted(2.0), large.demoted(2.0))
}

fn reason_cases(rt: &impl Print) -> io::Result<()> {
    reason(rt, Reason::LengthsDiffer)?;
    reason(rt, Reason::TooManyPoints)?;
    reason(rt, Reason::OffGrid(PointIndex(0)))?;
    reason(rt, Reason::OffGrid(PointIndex(4095)))?;
    reason(rt, Reason::ToleranceNotFinite)?;
    reason(rt, Reason::RingTable)?;
    reason(rt, Reason::RingNotClosed)?;
    reason(rt, Reason::OutputShort)?;
    reason(rt, Reason::MemoryShort)?;
    reason(rt, Reason::NoSuchSlot)?;
    reason(rt, Reason::SlotIsOpen)?;
    reason(rt, Reason::SlotNotOpen)
}

fn slot_cases(rt: &impl Print) -> io::Result<()> {
    part(rt, SlotNumber(0))?;
    part(rt, SlotNumber(1))?;
    part(rt, SlotNumber(7))?;
    part(rt, SlotNumber(8))?;
    part(rt, SlotNumber(4294967295))
}

fn on_grid(rt: &impl Print, v: f64) -> io::Result<()> {
    println!(rt; "on_grid {} {}", Bits(v), yes(grid::on_grid(v)))
}

// As it is: tools/expect-checkpoints reads a case's six numbers from its call.
fn area(rt: &impl Print, ax: f64, ay: f64, bx: f64, by: f64, cx: f64, cy: f64) -> io::Result<()> {
    let a = Coord { x: ax, y: ay };
    let b = Coord { x: bx, y: by };
    let c = Coord { x: cx, y: cy };
    println!(rt; "area {}", Bits(grid::area(a, b, c)))
}

fn above(rt: &impl Print, a: f64, t: f64) -> io::Result<()> {
    println!(rt; "above {} {} {}", Bits(a), Bits(t), yes(grid::above(a, t)))
}

fn sooner(rt: &impl Print, s: VScore, u: VScore) -> io::Result<()> {
    println!(rt; "sooner {} {} {}", Shown(s), Shown(u), yes(s.sooner(u)))
}

fn reason(rt: &impl Print, w: Reason) -> io::Result<()> {
    println!(rt; "reason {} {}", numbered::number(w), numbered::place(w))
}

fn part(rt: &impl Print, k: SlotNumber) -> io::Result<()> {
    let at = Slot::new(k);
    println!(rt; "part {} {}", at.floats, at.words)
}

fn yes(b: bool) -> &'static str {
    if b { "yes" } else { "no" }
}

// A float by its 64 bits.
#[derive(Clone, Copy)]
struct Bits(f64);

impl fmt::Display for Bits {
    fn fmt<W: fmt::Write>(&self, f: &mut fmt::Formatter<W>) -> fmt::Result {
        if self.0.is_nan() {
            write!(f, "nan")
        } else {
            write!(f, "{:016x}", bits::of(self.0))
        }
    }
}

// A score by its three points and the bits of its area.
#[derive(Clone, Copy)]
struct Shown(VScore);

impl fmt::Display for Shown {
    fn fmt<W: fmt::Write>(&self, f: &mut fmt::Formatter<W>) -> fmt::Result {
        let s = self.0;
        write!(f, "{} {} {} {}", s.left, s.current, s.right, Bits(s.area))
    }
}
