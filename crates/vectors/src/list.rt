// A vector of the list: the numbers that its line starts with.
ghost use Rattle.std.specs.Prelude.{◌≡◌, is_ok, nat_eq, if◌then◌else◌};
ghost use Rattle.std.specs.Result.{result_unwrap_or};
ghost use Rattle.numbers.specs.Reading.{past_number, index, past_all, all};
ghost use Rattle.vectors.specs.Listed.{vector_of};

use crate::call::Call;
use numbers::{Cursor, Readable};
use rule::Reason;

#[derive(Clone, Copy)]
pub struct Vector {
    // none: no call has this number
    pub call: Option<Call>,
    pub lent: Lengths,
    // how many are kept
    pub answer: Result<u32, Refusal>,
}

// How much is lent to the call.
#[derive(Clone, Copy)]
pub struct Lengths {
    pub xs: u32,
    pub ys: u32,
    pub rings: u32,
    pub out: u32,
    // the room for the ring table that the call writes
    pub table: u32,
    pub floats: u32,
    pub words: u32,
}

// A reason by its number, and the point that is off the grid.
#[derive(Clone, Copy, PartialEq)]
pub struct Refusal {
    pub number: u32,
    pub place: u32,
}

impl From<Reason> for Refusal {
    fn from(reason: Reason) -> Refusal {
        Refusal {
            number: numbered::number(reason),
            place: numbered::place(reason),
        }
    }
}

impl Vector {
    pub fn read(from: &mut Cursor<'_>) -> Vector
        ensures value { result ≡ vector_of (all (index from.old.text.now) (past_number from.old.text.now) from.old.at 10) }
        ensures next { from.new ≡ record from.old { at = past_all (past_number from.old.text.now) from.old.at 10 } }
    {
        let call = Call::of(u32::read(from));
        let lent = Lengths {
            xs: u32::read(from),
            ys: u32::read(from),
            rings: u32::read(from),
            out: u32::read(from),
            table: u32::read(from),
            floats: u32::read(from),
            words: u32::read(from),
        };
        let reason = u32::read(from);
        let n = u32::read(from);
        let answer = match reason {
            0 => Ok(n),
            number => Err(Refusal { number, place: n }),
        };
        Vector { call, lent, answer }
    }

    // How many indices follow.
    pub fn kept(&self) -> u32
        ensures { result ≡ result_unwrap_or self.now.answer 0 }
    {
        self.answer.unwrap_or(0)
    }

    pub fn kept_rings(&self) -> u32
        ensures { result ≡ (if is_ok self.now.answer then self.now.lent.rings else 0) }
    {
        if self.answer.is_ok() {
            self.lent.rings
        } else {
            0
        }
    }

    // For how many points the scratch is zeroed. A call that takes none is lent none.
    pub fn zeroed(&self) -> u32
        ensures { result ≡ (if nat_eq self.now.lent.floats 0 then 0 else (if is_ok self.now.answer then self.now.lent.xs else 0)) }
    {
        if self.lent.floats != 0 && self.answer.is_ok() {
            self.lent.xs
        } else {
            0
        }
    }
}
