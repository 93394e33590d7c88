// What the calls answer, and the sizes: the words of document 01 as types.
#![tactic(auto)]

ghost use Rattle.std.specs.Prelude.{◌≡◌, ◌+◌, ◌*◌, length};
ghost use Rattle.rule.specs.Sizes.{slot_floats, slot_words};

use std::ops::Range;

// A place in the lent points. Never a slot.
#[derive(Clone, Copy)]
pub struct PointIndex(pub u32);

// One of the eight slots, or a number above 7, which every call refuses. Never a point.
#[derive(Clone, Copy)]
pub struct SlotNumber(pub u32);

// The reasons of document 01, a case a row, in the table's order.
#[derive(Clone, Copy)]
pub enum Reason {
    LengthsDiffer,
    TooManyPoints,
    OffGrid(PointIndex),
    ToleranceNotFinite,
    RingTable,
    RingNotClosed,
    OutputShort,
    MemoryShort,
    NoSuchSlot,
    SlotIsOpen,
    SlotNotOpen,
}

// A list was written, of so many indices; or nothing was.
pub type Thinned = Result<u32, Reason>;

// Clear, open, close.
pub type Outcome = Result<(), Reason>;

// One removal, with the area.
// As it is: document 01 names this form for a step's answer.
#[derive(Clone, Copy)]
pub enum Step {
    Removed(PointIndex, f64),
    Finished,
    Refused(Reason),
}

// The points left were written, so many indices; or nothing was.
pub type Listing = Result<u32, Reason>;

// A line, or all rings of a polygon: how many points.
// As it is: document 01 has a type of its own for each kind of size, with its constants and a constructor, here and below.
#[derive(Clone, Copy)]
pub struct Line {
    pub points: usize,
}

impl Line {
    pub const POINTS: usize = 4096;

    pub fn new(x: &[f64]) -> Line
        ensures { result.points ≡ length x.now }
    {
        Line { points: x.len() }
    }
}

// A ring table: how many rings.
#[derive(Clone, Copy)]
pub struct Polygon {
    pub rings: usize,
}

impl Polygon {
    pub const RINGS: usize = 64;

    pub fn new(table: &[u32]) -> Polygon
        ensures { result.rings ≡ length table.now }
    {
        Polygon { rings: table.len() }
    }
}

// How much was lent as scratch. A thinning call needs so many places a point.
#[derive(Clone, Copy)]
pub struct Scratch {
    pub floats: usize,
    pub words: usize,
}

impl Scratch {
    pub const FLOATS: usize = 3;

    pub const WORDS: usize = 12;

    pub fn new(floats: &[f64], words: &[u32]) -> Scratch
        ensures { (result.floats ≡ length floats.now) × (result.words ≡ length words.now) }
    {
        Scratch {
            floats: floats.len(),
            words: words.len(),
        }
    }
}

// Where a slot's part starts in the two lent slices.
#[derive(Clone, Copy)]
pub struct Slot {
    pub floats: usize,
    pub words: usize,
}

impl Slot {
    pub const FLOATS: usize = 20480;

    pub const WORDS: usize = 49168;

    pub fn new(number: SlotNumber) -> Slot
        ensures { (result.floats ≡ number.0 * slot_floats) × (result.words ≡ number.0 * slot_words) }
    {
        let k = number.0 as usize;
        Slot {
            floats: k * Slot::FLOATS,
            words: k * Slot::WORDS,
        }
    }

    // The places of the part in the two lent slices.
    pub fn places(number: SlotNumber) -> (Range<usize>, Range<usize>)
        ensures floats { (result.0.start ≡ number.0 * slot_floats) × (result.0.end ≡ result.0.start + slot_floats) }
        ensures words { (result.1.start ≡ number.0 * slot_words) × (result.1.end ≡ result.1.start + slot_words) }
    {
        let at = Slot::new(number);
        (
            at.floats..at.floats + Slot::FLOATS,
            at.words..at.words + Slot::WORDS,
        )
    }
}

// How much was lent as a work area.
#[derive(Clone, Copy)]
pub struct WorkArea {
    pub floats: usize,
    pub words: usize,
}

impl WorkArea {
    pub const SLOTS: u32 = 8;

    pub const FLOATS: usize = 163840;

    pub const WORDS: usize = 393344;

    pub fn new(floats: &[f64], words: &[u32]) -> WorkArea
        ensures { (result.floats ≡ length floats.now) × (result.words ≡ length words.now) }
    {
        WorkArea {
            floats: floats.len(),
            words: words.len(),
        }
    }
}
