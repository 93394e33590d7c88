// Replays the list of vectors on standard input through the whole calls and prints a line a call. Each vector's call must answer as the
// list says, write the list's indices and ring table, zero its scratch up to the size, and leave the rest as it was lent.
// oracle/README.md has the list's format; tools/make-vectors makes the list, and works out from it what must be printed.
#![tactic(auto)]

ghost use Rattle.std.specs.Prelude.{◌≡◌, length};

mod call;
mod list;
mod replay;

use call::Call;
use list::Vector;
use numbers::Cursor;
use std::io;

// No more of standard input is read.
const ROOM: usize = 1048576;

fn main(rt: HostRuntime) -> io::Result<()> {
    let mut room: [u8; ROOM] = filled(0);
    let n = numbers::read_full(&mut rt.stdin(), &mut room)?;
    for call in Call::ALL {
        report(&rt, call, &Tally::of(&room[..n], call))?;
    }
    Ok(())
}

// Its `ensures` gives only the length, which lending the array as a slice needs.
fn filled<T: Copy, const N: usize>(value: T) -> [T; N]
    ensures { N ≡ length result }
{
    [value; N]
}

#[derive(Default, Drop)]
struct Tally {
    vectors: u64,
    refused: u64,
    agree: u64,
    // the first line that differs, counted from 1
    differs: Option<u64>,
}

impl Tally {
    // The lines of one call.
    fn of(text: &[u8], call: Call) -> Tally {
        let mut tally = Tally::default();
        let mut list = Cursor { text, at: 0 };
        let mut line = 0u64;
        // As it is: a loop over `next_line`, of which the edit numbers/stays_on_the_line speaks, and not over `split_inclusive`.
        while list.at < list.text.len() {
            line = line.saturating_add(1);
            let mut words = list;
            let vector = Vector::read(&mut words);
            if vector.call == Some(call) {
                tally.count(&vector, replay::agrees(call, &vector, &mut words), line);
            }
            list.next_line();
        }
        tally
    }

    fn count(&mut self, vector: &Vector, agrees: bool, line: u64) {
        self.vectors = self.vectors.saturating_add(1);
        if vector.answer.is_err() {
            self.refused = self.refused.saturating_add(1);
        }
        if agrees {
            self.agree = self.agree.saturating_add(1);
        } else {
            self.differs = self.differs.or(Some(line));
        }
    }
}

fn report(rt: &impl Print, call: Call, t: &Tally) -> io::Result<()> {
    println!(rt;
        "{call}: {} vectors, {} of them refused, {} agree",
        t.vectors, t.refused, t.agree
    )?;
    if let Some(line) = t.differs {
        println!(rt; "  the first that differs is on line {line}")?;
    }
    Ok(())
}
