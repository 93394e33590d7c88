// Reads numbers from lines of text, where blanks part them. What is missing at a line's end reads as 0.
#![tactic(auto)]

ghost use Rattle.std.specs.Prelude.{◌≡◌, ℕ, min, Bool, List, length, drop, take_while, ◌≤◌, ◌==◌, IfOk};
ghost use Rattle.numbers.specs.Reading.{
  byte_at,
  next_line,
  is_blank,
  past,
  with_digit,
  number,
  past_number,
  index,
  coordinate,
  past_coordinate,
  ReadInto,
};

use std::io;
use std::io::Read;

// Reads until there is no more room or no more input, and gives how many bytes there are.
pub fn read_full(from: &mut impl Read, into: &mut [u8]) -> io::Result<usize>
    ensures { IfOk result (λ n. n ≤ length into.new) }
{
    let mut done = 0;
    // As it is: `read_to_end` reads into memory of the heap, and what allocates may fail.
    while done < into.len() {
        let n = from.read(&mut into[done..])?;
        if n == 0 {
            break;
        }
        done += n;
    }
    Ok(done)
}

// A text, and a place in it or past its end.
#[derive(Clone, Copy)]
pub struct Cursor<'a> {
    pub text: &'a [u8],
    pub at: usize,
}

impl<'a> Cursor<'a> {
    // The byte here. The text ends as a line does.
    pub fn byte(&self) -> u8
        ensures { result ≡ byte_at self.now.text.now self.now.at }
    {
        self.text.get(self.at).copied().unwrap_or(b'\n')
    }

    // Whether the line has no more.
    pub fn is_end(&self) -> bool
        ensures { result ≡ (byte_at self.now.text.now self.now.at == 10) }
    {
        self.byte() == b'\n'
    }

    // Goes to the first place after this line.
    pub fn next_line(&mut self)
        ensures { self.new ≡ record self.old { at = next_line self.old.text.now self.old.at } }
    {
        self.pass(|b| b != b'\n');
        if self.at < self.text.len() {
            self.at += 1;
        }
    }

    // Reads n of them, or as many as there is room for.
    pub fn read_into<T: Readable>(&mut self, n: u32, into: &mut [T])
        ensures read { ReadInto (T.value self.old.text.now) (T.next self.old.text.now) self.old.at n
            into.old into.new self.new.at }
        ensures text { self.new.text ≡ self.old.text }
    {
        let end = least(n, into.len());
        for place in into[..end].iter_mut() {
            *place = T::read(self);
        }
    }

    fn skip_blanks(&mut self)
        ensures { self.new ≡ record self.old { at = past is_blank self.old.text.now self.old.at } }
    {
        self.pass(|b| b == b' ');
    }

    // Passes all bytes of a kind that stand here, and gives them.
    fn pass<F: Fn(u8) -> bool>(&mut self, is_of_kind: F) -> &'a [u8]
        ghost kind: { ℕ → Bool }
        requires callable { F.IsAlwaysCallable is_of_kind }
        requires tests { (b : ℕ) (r : Bool) → F.post is_of_kind b r → r ≡ kind b }
        ensures passed { result.now ≡ take_while kind (drop self.old.at self.old.text.now) }
        ensures past { self.new ≡ record self.old { at = past kind self.old.text.now self.old.at } }
    {
        let from = self.at;
        // As it is: a `take_while` that is counted wants slices of what follows, which cost more than a short run of bytes.
        while self.at < self.text.len() && is_of_kind(self.text[self.at]) {
            self.at += 1;
        }
        self.text.get(from..self.at).unwrap_or(&[])
    }
}

// What can be read from a text: a `u64` is a whole number, a `u32` the lower half of one, an `f64` a coordinate.
pub trait Readable: Copy {
    // What a text says from a place on, and the place past it.
    ghost value: { List ℕ → ℕ → Self };

    ghost next: { List ℕ → ℕ → ℕ };

    fn read(from: &mut Cursor<'_>) -> Self
        ensures value { result ≡ value from.old.text.now from.old.at }
        ensures next { from.new ≡ record from.old { at = next from.old.text.now from.old.at } };
}

impl Readable for u64 {
    ghost value = { number };

    ghost next = { past_number };

    fn read(from: &mut Cursor<'_>) -> u64 {
        from.skip_blanks();
        let mut value = 0;
        // As it is: a `fold` wants the digits as a slice, and goes over them once more.
        while from.byte().is_ascii_digit() {
            value = with_digit(value, from.byte());
            from.at += 1;
        }
        value
    }
}

impl Readable for u32 {
    ghost value = { index };

    ghost next = { past_number };

    fn read(from: &mut Cursor<'_>) -> u32 {
        (u64::read(from) % 4294967296) as u32
    }
}

impl Readable for f64 {
    ghost value = { coordinate };

    ghost next = { past_coordinate };

    // A whole number, `-` and one, or `b` and the bits of any float.
    fn read(from: &mut Cursor<'_>) -> f64 {
        from.skip_blanks();
        match from.byte() {
            b'b' => {
                from.at += 1;
                std::num::f64_from_bits_with_nan(u64::read(from))
            }
            b'-' => {
                from.at += 1;
                -std::num::nearest_u64_to_f64(u64::read(from))
            }
            _ => std::num::nearest_u64_to_f64(u64::read(from)),
        }
    }
}

// One more digit, or the greatest number where there is no room for it.
fn with_digit(value: u64, b: u8) -> u64
    ensures { result ≡ with_digit value b }
{
    let digit = b.saturating_sub(b'0');
    value.saturating_mul(10).saturating_add(u64::from(digit))
}

pub fn least(n: u32, most: usize) -> usize
    ensures { result ≡ min n most }
{
    most.min(n as usize)
}
