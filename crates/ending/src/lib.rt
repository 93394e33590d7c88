// How a call that thins ends: zeros in the scratch, the list, the count.
#![tactic(auto)]

ghost use Rattle.std.specs.Prelude.{◌≡◌, ◌≤◌, length};
ghost use Rattle.rule.specs.Sizes.{most_points, scratch_floats, scratch_words};
ghost use Rattle.rule.specs.Area.{zero_float, cleared};
ghost use Rattle.rule.specs.Whole.{lent};
ghost use Rattle.layout.specs.Layout.{scratch_of};
ghost use Rattle.links.specs.Ring.{all_unmarked};
ghost use Rattle.ending.specs.Keeps.{Keeps};

use layout::Layout;
use links::Linked;
use rule::Scratch;

// Zeros in the scratch of so many points.
pub fn zero_scratch(floats: &mut [f64], words: &mut [u32], points: usize)
    requires { (scratch_floats points ≤ length floats.old) × (scratch_words points ≤ length words.old) }
    ensures { (floats.new ≡ cleared zero_float (scratch_floats points) floats.old)
        × (words.new ≡ cleared 0 (scratch_words points) words.old) }
{
    floats[..Scratch::FLOATS * points].fill(0.0);
    words[..Scratch::WORDS * points].fill(0);
}

// How a call that thins so many points ends: the points left with no mark are listed, the scratch is zeroed. Gives how many.
pub fn finish(points: usize, out: &mut [u32], floats: &mut [f64], words: &mut [u32]) -> u32
    requires { (points ≤ most_points) × (points ≤ length out.old) × (scratch_floats points ≤ length floats.old) × (scratch_words points ≤ length words.old) }
    ensures { Keeps points (all_unmarked words.old (scratch_of points)) (lent out.old floats.old words.old)
        result (lent out.new floats.new words.new) }
{
    let links = Linked {
        words,
        m: Layout::scratch(points),
    };
    let count = links.list_kept(out);
    zero_scratch(floats, words, points);
    count as u32
}
