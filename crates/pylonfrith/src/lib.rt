// The C face. A slice is a pointer and a length in elements; an answer is one u64, packed.
#![tactic(auto)]

ghost use Rattle.std.specs.Prelude.{◌≡◌};
ghost use Rattle.rule.specs.Plain.{index_rule, point_rule};
ghost use Rattle.rule.specs.Rings.{line_rule};
ghost use Rattle.rule.specs.Repeat.{consecutive, anywhere};
ghost use Rattle.rule.specs.Answers.{of_thinned, of_outcome, of_step, of_listing};
ghost use Rattle.rule.specs.Area as memory;
ghost use Rattle.rule.specs.Whole.{Lists, lent, Thins, lent_rings, ThinsRings};
ghost use Rattle.rule.specs.SlotCalls.{Clears, Closes, Opens, Steps, Reads};
ghost use Rattle.part.specs.Rep.{Rep};
ghost use Rattle.pack.specs.Packing.{area_after, Packs};

use rule::SlotNumber;

// As it is: the C interface needs each function's name, its parameters one by one, and its number.
#[unsafe(no_mangle)]
pub extern "C" fn pf_simplify_vw_idx(
    x: &[f64],
    y: &[f64],
    tolerance: f64,
    out: &mut [u32],
    floats: &mut [f64],
    words: &mut [u32],
) -> u64
    ensures { Packs of_thinned (λ r. Thins index_rule x.now y.now tolerance
        (lent out.old floats.old words.old) r (lent out.new floats.new words.new)) result }
{
    pack::pack_count(simplify_vw::simplify_vw_idx(x, y, tolerance, out, floats, words))
}

#[unsafe(no_mangle)]
pub extern "C" fn pf_simplify_vw(
    x: &[f64],
    y: &[f64],
    tolerance: f64,
    out: &mut [u32],
    floats: &mut [f64],
    words: &mut [u32],
) -> u64
    ensures { Packs of_thinned (λ r. Thins point_rule x.now y.now tolerance
        (lent out.old floats.old words.old) r (lent out.new floats.new words.new)) result }
{
    pack::pack_count(simplify_vw::simplify_vw(x, y, tolerance, out, floats, words))
}

#[unsafe(no_mangle)]
pub extern "C" fn pf_simplify_vw_preserve(
    x: &[f64],
    y: &[f64],
    tolerance: f64,
    out: &mut [u32],
    floats: &mut [f64],
    words: &mut [u32],
) -> u64
    ensures { Packs of_thinned (λ r. Thins line_rule x.now y.now tolerance
        (lent out.old floats.old words.old) r (lent out.new floats.new words.new)) result }
{
    pack::pack_count(simplify_vw_preserve::simplify_vw_preserve(
        x, y, tolerance, out, floats, words,
    ))
}

#[unsafe(no_mangle)]
pub extern "C" fn pf_simplify_vw_preserve_polygon(
    x: &[f64],
    y: &[f64],
    tolerance: f64,
    rings: &[u32],
    out: &mut [u32],
    ring_out: &mut [u32],
    floats: &mut [f64],
    words: &mut [u32],
) -> u64
    ensures { Packs of_thinned (λ r. ThinsRings x.now y.now tolerance rings.now
        (lent_rings out.old ring_out.old floats.old words.old) r
        (lent_rings out.new ring_out.new floats.new words.new)) result }
{
    pack::pack_count(simplify_vw_preserve::simplify_vw_preserve_polygon(
        x, y, tolerance, rings, out, ring_out, floats, words,
    ))
}

#[unsafe(no_mangle)]
pub extern "C" fn pf_remove_repeated_points(x: &[f64], y: &[f64], out: &mut [u32]) -> u64
    ensures { Packs of_thinned (λ r. Lists consecutive x.now y.now out.old r out.new) result }
{
    pack::pack_count(remove_repeated_points::remove_repeated_points(x, y, out))
}

#[unsafe(no_mangle)]
pub extern "C" fn pf_remove_repeated_points_anywhere(x: &[f64], y: &[f64], out: &mut [u32]) -> u64
    ensures { Packs of_thinned (λ r. Lists anywhere x.now y.now out.old r out.new) result }
{
    pack::pack_count(remove_repeated_points::remove_repeated_points_anywhere(x, y, out))
}

#[unsafe(no_mangle)]
pub extern "C" fn pf_clear(floats: &mut [f64], words: &mut [u32]) -> u64
    ensures { Packs of_outcome (λ r. Clears (memory.area floats.old words.old) r (memory.area floats.new words.new)) result }
{
    pack::pack_outcome(slots::clear(floats, words))
}

#[unsafe(no_mangle)]
pub extern "C" fn pf_open(
    floats: &mut [f64],
    words: &mut [u32],
    slot: u32,
    x: &[f64],
    y: &[f64],
    tolerance: f64,
) -> u64
    ensures { Packs of_outcome (λ r. Opens Rep slot x.now y.now tolerance
        (memory.area floats.old words.old) r (memory.area floats.new words.new)) result }
{
    pack::pack_outcome(slots::open(floats, words, SlotNumber(slot), x, y, tolerance))
}

#[unsafe(no_mangle)]
pub extern "C" fn pf_step(floats: &mut [f64], words: &mut [u32], slot: u32, area: &mut f64) -> u64
    ensures { Packs of_step (λ r. Steps Rep slot (memory.area floats.old words.old) r (memory.area floats.new words.new)
        × (area.new ≡ area_after r area.old)) result }
{
    pack::pack_step(slots::step(floats, words, SlotNumber(slot)), area)
}

#[unsafe(no_mangle)]
pub extern "C" fn pf_read(floats: &[f64], words: &[u32], slot: u32, out: &mut [u32]) -> u64
    ensures { Packs of_listing (λ r. Reads Rep slot (memory.area floats.now words.now) out.old r out.new) result }
{
    pack::pack_count(slots::read(floats, words, SlotNumber(slot), out))
}

#[unsafe(no_mangle)]
pub extern "C" fn pf_close(floats: &mut [f64], words: &mut [u32], slot: u32) -> u64
    ensures { Packs of_outcome (λ r. Closes slot (memory.area floats.old words.old) r (memory.area floats.new words.new)) result }
{
    pack::pack_outcome(slots::close(floats, words, SlotNumber(slot)))
}
