// Eight lines in one work area, thinned one removal at a time. A call tests its reasons in document 01's order, and hands the named slot's part on.
#![tactic(auto)]

ghost use Rattle.rule.specs.Answers.{of_outcome, of_step, of_listing};
ghost use Rattle.rule.specs.Area.{area};
ghost use Rattle.rule.specs.SlotCalls.{Clears, Closes, Opens, Steps, Reads};
ghost use Rattle.part.specs.Rep.{Rep};

use rule::{Listing, Outcome, Reason, Slot, SlotNumber, Step, WorkArea};

// As it is: floats, words and slot stay parameters of each call, as document 01 and the C interface have them.

// Zeroes the area.
pub fn clear(floats: &mut [f64], words: &mut [u32]) -> Outcome
    ensures { Clears (area floats.old words.old) (of_outcome result) (area floats.new words.new) }
{
    if lent::area_short(floats, words) {
        return Err(Reason::MemoryShort);
    }
    floats[..WorkArea::FLOATS].fill(0.0);
    words[..WorkArea::WORDS].fill(0);
    Ok(())
}

// Copies the points and the tolerance into the slot.
pub fn open(
    floats: &mut [f64],
    words: &mut [u32],
    slot: SlotNumber,
    x: &[f64],
    y: &[f64],
    tolerance: f64,
) -> Outcome
    ensures { Opens Rep slot.0 x.now y.now tolerance
        (area floats.old words.old) (of_outcome result) (area floats.new words.new) }
{
    slot_reasons::open_reason(floats, words, slot, x, y, tolerance)?;
    let (f, w) = Slot::places(slot);
    part::fill(&mut floats[f], &mut words[w], x, y, tolerance);
    Ok(())
}

// Makes one removal of the plain index rule.
pub fn step(floats: &mut [f64], words: &mut [u32], slot: SlotNumber) -> Step
    ensures { Steps Rep slot.0 (area floats.old words.old) (of_step result) (area floats.new words.new) }
{
    // As it is: document 01 names Step as an answer enum, so no ? hands the reason on.
    if let Err(reason) = slot_reasons::slot_reason(floats, words, slot) {
        return Step::Refused(reason);
    }
    let (f, w) = Slot::places(slot);
    part::advance(&mut floats[f], &mut words[w])
}

// Lists the points left.
pub fn read(floats: &[f64], words: &[u32], slot: SlotNumber, out: &mut [u32]) -> Listing
    ensures { Reads Rep slot.0 (area floats.now words.now) out.old (of_listing result) out.new }
{
    slot_reasons::slot_reason(floats, words, slot)?;
    let (_, w) = Slot::places(slot);
    part::list(&words[w], out)
}

// Zeroes the slot's part.
pub fn close(floats: &mut [f64], words: &mut [u32], slot: SlotNumber) -> Outcome
    ensures { Closes slot.0 (area floats.old words.old) (of_outcome result) (area floats.new words.new) }
{
    slot_reasons::slot_reason(floats, words, slot)?;
    let (f, w) = Slot::places(slot);
    floats[f].fill(0.0);
    words[w].fill(0);
    Ok(())
}
