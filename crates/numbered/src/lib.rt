// The number of a reason, and the place that comes with it.
#![tactic(auto)]

ghost use Rattle.std.specs.Prelude.{◌≡◌};
ghost use Rattle.rule.specs.Answers.{number, place};

use rule::Reason;

// As it is: a reason has two numbers, its own and a place, so that neither is its From.
pub fn number(reason: Reason) -> u32
    ensures { result ≡ number reason }
{
    match reason {
        Reason::LengthsDiffer => 1,
        Reason::TooManyPoints => 2,
        Reason::OffGrid(_) => 3,
        Reason::ToleranceNotFinite => 4,
        Reason::RingTable => 5,
        Reason::RingNotClosed => 6,
        Reason::OutputShort => 7,
        Reason::MemoryShort => 8,
        Reason::NoSuchSlot => 9,
        Reason::SlotIsOpen => 10,
        Reason::SlotNotOpen => 11,
    }
}

// The point that comes with reason 3, else 0.
pub fn place(reason: Reason) -> u32
    ensures { result ≡ place reason }
{
    match reason {
        Reason::OffGrid(point) => point.0,
        _ => 0,
    }
}
