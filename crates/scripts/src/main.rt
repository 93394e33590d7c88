// Plays the script on standard input, a slot call a line, and prints what each call answers. The work area is one place longer than the
// table of sizes asks, and starts full of other numbers. A line is a call's word and its numbers, or one of these:
//     lent FLOATS WORDS    from here on so many places of the area are lent
//     edge                 prints the last places of the area, then those past it
//     -- TITLE
// tools/expect-scripts plays the script on a model of document 01, and so works out what must be printed.
#![tactic(auto)]

ghost use Rattle.std.specs.Prelude.{◌≡◌, length};

use numbers::{Cursor, Readable, least};
use rule::{Line, Listing, Outcome, Reason, SlotNumber, Step, WorkArea};
use std::io;
use std::io::Write;

// No more of the script is read.
const ROOM: usize = 65536;

// The area, and one place more.
const FLOATS: usize = WorkArea::FLOATS + 1;

const WORDS: usize = WorkArea::WORDS + 1;

// Every word has its numbers past this place.
const NUMBERS: usize = 5;

// The x and y of a point more than a line may have.
const COORDINATES: usize = 2 * (Line::POINTS + 1);

fn main(rt: HostRuntime) -> io::Result<()> {
    let mut room: [u8; ROOM] = filled(0);
    let mut floats: [f64; FLOATS] = filled(0.5);
    let mut words: [u32; WORDS] = filled(7);
    let n = numbers::read_full(&mut rt.stdin(), &mut room)?;
    play(&rt, &room[..n], &mut floats, &mut words)
}

// Its `ensures` gives only the length, which lending the array as a slice needs.
fn filled<T: Copy, const N: usize>(value: T) -> [T; N]
    ensures { N ≡ length result }
{
    [value; N]
}

fn play(rt: &impl Print, text: &[u8], floats: &mut [f64], words: &mut [u32]) -> io::Result<()> {
    let mut lent = Lent {
        floats: u32::MAX,
        words: u32::MAX,
    };
    for line in text.split_inclusive(|b| *b == b'\n') {
        match Word::of(line) {
            Word::Title => io::writer(rt).write_all(line)?,
            Word::Lent => {
                io::writer(rt).write_all(line)?;
                lent = Lent::read(line);
            }
            Word::Edge => edge(rt, floats, words)?,
            Word::Call(call) => play_call(rt, line, call, lent.of(floats, words))?,
        }
    }
    Ok(())
}

#[derive(Clone, Copy)]
enum Word {
    Title,
    Lent,
    Edge,
    Call(Call),
}

#[derive(Clone, Copy)]
enum Call {
    Clear,
    Open,
    Step,
    Read,
    Close,
}

impl Word {
    // The fourth letter tells the words apart. Any other word is `open`.
    fn of(line: &[u8]) -> Word {
        match line {
            [b'-', ..] | [_, _, _, b'-', ..] => Word::Title,
            [_, _, _, b't', ..] => Word::Lent,
            [_, _, _, b'e', ..] => Word::Edge,
            [_, _, _, b'a', ..] => Word::Call(Call::Clear),
            [_, _, _, b'p', ..] => Word::Call(Call::Step),
            [_, _, _, b'd', ..] => Word::Call(Call::Read),
            [_, _, _, b's', ..] => Word::Call(Call::Close),
            _ => Word::Call(Call::Open),
        }
    }
}

// How many places of the area are lent, or all that there are.
#[derive(Drop)]
struct Lent {
    floats: u32,
    words: u32,
}

impl Lent {
    fn read(line: &[u8]) -> Lent {
        let mut numbers = Cursor {
            text: line,
            at: NUMBERS,
        };
        Lent {
            floats: u32::read(&mut numbers),
            words: u32::read(&mut numbers),
        }
    }

    fn of<'a>(&self, floats: &'a mut [f64], words: &'a mut [u32]) -> Area<'a> {
        let f = least(self.floats, floats.len());
        let w = least(self.words, words.len());
        Area {
            floats: &mut floats[..f],
            words: &mut words[..w],
        }
    }
}

// What is lent of the area.
#[derive(Drop)]
struct Area<'a> {
    floats: &'a mut [f64],
    words: &'a mut [u32],
}

// Prints the line as far as the slot, and then the answer.
fn play_call(
    rt: &impl Print,
    line: &[u8],
    call: Call,
    Area { floats, words }: Area<'_>,
) -> io::Result<()> {
    let mut numbers = Cursor {
        text: line,
        at: NUMBERS,
    };
    let slot = SlotNumber(u32::read(&mut numbers));
    if let Some(head) = line.get(..numbers.at) {
        io::writer(rt).write_all(head)?;
    }
    match call {
        Call::Clear => outcome(rt, slots::clear(floats, words))?,
        Call::Open => outcome(rt, open(&mut numbers, slot, Area { floats, words }))?,
        Call::Step => step(rt, slots::step(floats, words, slot))?,
        Call::Read => read(rt, u32::read(&mut numbers), slot, Area { floats, words })?,
        Call::Close => outcome(rt, slots::close(floats, words, slot))?,
    }
    println!(rt; "")
}

// The y follow the x.
fn open(numbers: &mut Cursor<'_>, slot: SlotNumber, Area { floats, words }: Area<'_>) -> Outcome {
    let tolerance = std::num::f64_from_bits_with_nan(u64::read(numbers));
    let xs = u32::read(numbers);
    let ys = u32::read(numbers);
    let mut points = [0.0; COORDINATES];
    numbers.read_into(u32::MAX, &mut points);
    let (x, rest) = points.split_at(least(xs, COORDINATES));
    let y = &rest[..least(ys, rest.len())];
    slots::open(floats, words, slot, x, y, tolerance)
}

// In so many places for the indices, nine at most.
fn read(
    rt: &impl Print,
    places: u32,
    slot: SlotNumber,
    Area { floats, words }: Area<'_>,
) -> io::Result<()> {
    let mut out = [99; 9];
    let out = &mut out[..least(places, 9)];
    listing(rt, slots::read(floats, words, slot, out))?;
    print!(rt; ":")?;
    for n in out {
        print!(rt; " {n}")?;
    }
    Ok(())
}

fn outcome(rt: &impl Print, answer: Outcome) -> io::Result<()> {
    match answer {
        Ok(()) => print!(rt; " done"),
        Err(reason) => refused(rt, reason),
    }
}

fn listing(rt: &impl Print, answer: Listing) -> io::Result<()> {
    match answer {
        Ok(count) => print!(rt; " listed {count}"),
        Err(reason) => refused(rt, reason),
    }
}

fn step(rt: &impl Print, answer: Step) -> io::Result<()> {
    match answer {
        Step::Removed(point, area) => {
            print!(rt; " removed {}", point.0)?;
            float(rt, area)
        }
        Step::Finished => print!(rt; " finished"),
        Step::Refused(reason) => refused(rt, reason),
    }
}

// A reason's number, and the place that comes with it.
fn refused(rt: &impl Print, reason: Reason) -> io::Result<()> {
    let number = numbered::number(reason);
    let place = numbered::place(reason);
    print!(rt; " refused {number} {place}")
}

// The last places of the area, then those past it.
fn edge(rt: &impl Print, floats: &[f64], words: &[u32]) -> io::Result<()> {
    print!(rt; "edge")?;
    let last_floats = floats.iter().skip(WorkArea::FLOATS - 1);
    let last_words = words.iter().skip(WorkArea::WORDS - 1);
    for (v, n) in last_floats.zip(last_words) {
        float(rt, *v)?;
        print!(rt; " {n}")?;
    }
    println!(rt; "")
}

// By its bits. None that is printed is a NaN.
fn float(rt: &impl Print, v: f64) -> io::Result<()> {
    let pattern = bits::of(v);
    print!(rt; " {pattern:016x}")
}
