// The packing of an answer into the u64 that C gets: a number of 32 bits in each half.
#![tactic(auto)]

ghost use Rattle.std.specs.Prelude.{◌≡◌};
ghost use Rattle.rule.specs.Answers.{refused_for, of_thinned, of_outcome, of_step};
ghost use Rattle.pack.specs.Packing.{Halves, area_after, Packed};

use rule::{Outcome, Reason, Step};

// Of a list that was written, or the points left: how many.
pub fn pack_count(answer: Result<u32, Reason>) -> u64
    ensures { Packed (of_thinned answer) result }
{
    match answer {
        Ok(count) => halves(0, count),
        Err(reason) => pack_refused(reason),
    }
}

pub fn pack_outcome(answer: Outcome) -> u64
    ensures { Packed (of_outcome answer) result }
{
    pack_count(answer.map(|()| 0))
}

// The area goes to its place on a removal alone.
pub fn pack_step(answer: Step, area: &mut f64) -> u64
    ensures { Packed (of_step answer) result × (area.new ≡ area_after (of_step answer) area.old) }
{
    match answer {
        Step::Removed(point, value) => {
            *area = value;
            halves(0, point.0)
        }
        Step::Finished => halves(255, 0),
        Step::Refused(reason) => pack_refused(reason),
    }
}

fn pack_refused(reason: Reason) -> u64
    ensures { Packed (refused_for reason) result }
{
    halves(numbered::number(reason), numbered::place(reason))
}

// The high and the low 32 bits.
fn halves(high: u32, low: u32) -> u64
    ensures { Halves high low result }
{
    (u64::from(high) << 32) | u64::from(low)
}
