// The reasons of a call on a slot, in document 01's order.
#![tactic(auto)]

ghost use Rattle.std.specs.Prelude.{◌≡◌, [], ◌<◌, ◌≤◌, length};
ghost use Rattle.std.proofs.Math.Option.{none};
ghost use Rattle.rule.specs.Sizes.{slots, area_words};
ghost use Rattle.rule.specs.Answers.{of_outcome};
ghost use Rattle.rule.specs.Area.{area, part, is_open};
ghost use Rattle.rule.specs.Reasons.{first_off_grid, open_reason, slot_reason};
ghost use Rattle.reasons.specs.Verdict.{verdict};
ghost use Rattle.slot_reasons.specs.Place.{place_reason};

use rule::{Outcome, Reason, Slot, SlotNumber};

// As it is: floats, words and slot stay parameters of each function, as the calls on slots have them.

// Of opening: 8, 9, 10, 1, 2, 4, 3.
pub fn open_reason(
    floats: &[f64],
    words: &[u32],
    slot: SlotNumber,
    x: &[f64],
    y: &[f64],
    tolerance: f64,
) -> Outcome
    ensures { of_outcome result ≡ verdict (open_reason slot.0 x.now y.now tolerance (area floats.now words.now))
        (first_off_grid x.now y.now) }
{
    place_reason(floats, words, slot)?;
    if is_open(words, slot) {
        return Err(Reason::SlotIsOpen);
    }
    reasons::line_reason(x, y, tolerance)
}

// Of a step, a read or a close: 8, 9, 11.
pub fn slot_reason(floats: &[f64], words: &[u32], slot: SlotNumber) -> Outcome
    ensures { of_outcome result ≡ verdict (slot_reason slot.0 (area floats.now words.now)) none }
{
    place_reason(floats, words, slot)?;
    if !is_open(words, slot) {
        return Err(Reason::SlotNotOpen);
    }
    Ok(())
}

// Of any call on a slot: 8, 9.
fn place_reason(floats: &[f64], words: &[u32], slot: SlotNumber) -> Outcome
    ensures { of_outcome result ≡ verdict (place_reason slot.0 (area floats.now words.now)) none }
{
    if lent::area_short(floats, words) {
        return Err(Reason::MemoryShort);
    }
    if lent::no_such_slot(slot) {
        return Err(Reason::NoSuchSlot);
    }
    Ok(())
}

// The first u32 of the slot's part is not 0.
fn is_open(words: &[u32], slot: SlotNumber) -> bool
    requires { (slot.0 < slots) × (area_words ≤ length words.now) }
    ensures { result ≡ is_open (part slot.0 (area [] words.now)) }
{
    words[Slot::new(slot).words] != 0
}
