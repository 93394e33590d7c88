// The preserving rule: a line, and the rings of a polygon, each beside the earlier ones already thinned and the later ones whole.
// Each statement settles its call: rule's `thins_settled` and `rings_settled`.
#![tactic(auto)]

ghost use Rattle.std.specs.Prelude.{◌≡◌, map, ◌≤◌, length};
ghost use Rattle.rule.specs.Sizes.{most_points};
ghost use Rattle.rule.specs.Grid.{points};
ghost use Rattle.rule.specs.Rings.{line_rule};
ghost use Rattle.rule.specs.Answers.{of_thinned};
ghost use Rattle.rule.specs.Whole.{over, lent, lent_rings, Thins, ThinsRings};
ghost use Rattle.layout.specs.Layout.{Room};
ghost use Rattle.lent.specs.Fine.{Ready};
ghost use Rattle.ending.specs.Keeps.{Keeps};
ghost use Rattle.links.specs.Words.{HasLinks};
ghost use Rattle.blocks.specs.Boxes.{behind_end};
ghost use Rattle.thin_ring.specs.Calls.{of_minima};
ghost use Rattle.ring_reasons.specs.Table.{Cuts};
ghost use Rattle.simplify_vw_preserve.specs.Calls.{LinkedAll, Wrapped, count_below};
ghost use Rattle.simplify_vw_preserve.specs.Whole.{ReadyRings, KeepsRings};

use blocks::Blocks;
use layout::{Layout, Plot};
use links::Linked;
use rule::Thinned;
use thin_ring::{Minima, Thinning};

// A line: minima 2 and 4.
// As it is: the C interface passes these one by one, here and for a polygon.
pub fn simplify_vw_preserve(
    x: &[f64],
    y: &[f64],
    tolerance: f64,
    out: &mut [u32],
    floats: &mut [f64],
    words: &mut [u32],
) -> Thinned
    ensures { Thins line_rule x.now y.now tolerance (lent out.old floats.old words.old)
        (of_thinned result) (lent out.new floats.new words.new) }
{
    reasons::thin_reason(x, y, tolerance, out.len(), floats, words)?;
    Ok(preserve_line(x, y, tolerance, out, floats, words))
}

// A polygon, whose rings end where the table says: minima 4 and 5. The ring output gets such a table for the kept list.
pub fn simplify_vw_preserve_polygon(
    x: &[f64],
    y: &[f64],
    tolerance: f64,
    rings: &[u32],
    out: &mut [u32],
    ring_out: &mut [u32],
    floats: &mut [f64],
    words: &mut [u32],
) -> Thinned
    ensures { ThinsRings x.now y.now tolerance rings.now
        (lent_rings out.old ring_out.old floats.old words.old)
        (of_thinned result) (lent_rings out.new ring_out.new floats.new words.new) }
{
    ring_reasons::polygon_reason(
        x,
        y,
        tolerance,
        rings,
        out.len(),
        ring_out.len(),
        floats,
        words,
    )?;
    Ok(preserve_rings(x, y, tolerance, rings, out, ring_out, floats, words))
}

// Lists what the rule keeps of a line, and gives how many.
// As it is: a struct of the lent `&mut` slices is no plainer, here and below, since each contract would have to say that its fields stay the same references.
fn preserve_line(
    x: &[f64],
    y: &[f64],
    tolerance: f64,
    out: &mut [u32],
    floats: &mut [f64],
    words: &mut [u32],
) -> u32
    requires { Ready x.now y.now tolerance (lent out.old floats.old words.old) }
    ensures { Keeps (length x.now) (line_rule (points x.now y.now) tolerance)
        (lent out.old floats.old words.old) result (lent out.new floats.new words.new) }
{
    let m = Layout::scratch(x.len());
    let rings = [x.len() as u32];
    let minima = Minima {
        first: 2,
        second: 4,
    };
    vwp_wrapper(Plot { x, y, m }, &rings, floats, words, minima, tolerance);
    ending::finish(x.len(), out, floats, words)
}

// Lists what the rule keeps of the rings, with their table, and gives how many.
fn preserve_rings(
    x: &[f64],
    y: &[f64],
    tolerance: f64,
    rings: &[u32],
    out: &mut [u32],
    ring_out: &mut [u32],
    floats: &mut [f64],
    words: &mut [u32],
) -> u32
    requires { ReadyRings x.now y.now tolerance rings.now (lent_rings out.old ring_out.old floats.old words.old) }
    ensures { KeepsRings x.now y.now tolerance rings.now
        (lent_rings out.old ring_out.old floats.old words.old)
        result (lent_rings out.new ring_out.new floats.new words.new) }
{
    let m = Layout::scratch(x.len());
    let minima = Minima {
        first: 4,
        second: 5,
    };
    vwp_wrapper(Plot { x, y, m }, rings, floats, words, minima, tolerance);
    list_ends(Linked { words, m }, rings, ring_out);
    ending::finish(x.len(), out, floats, words)
}

// geo's wrapper: thins the rings in the table's order. They share one memory, so that each sees the others.
fn vwp_wrapper(
    plot: Plot,
    rings: &[u32],
    floats: &mut [f64],
    words: &mut [u32],
    minima: Minima,
    tolerance: f64,
)
    requires { Room plot.m floats.old words.old × (plot.m.points ≤ most_points) × Cuts plot.m.points rings.now
        × (behind_end plot.m ≤ length floats.old) }
    ensures { Wrapped plot.entry.x.now plot.entry.y.now floats.old words.old plot.entry.m rings.now (of_minima minima) tolerance
        floats.new words.new }
{
    link_rings(words, plot.m, rings);
    // A tolerance of zero or less keeps all.
    if !lent::tolerance_positive(tolerance) {
        return;
    }
    let blocks = Blocks::behind_heap(plot.m);
    blocks.set_up(plot, floats, words);
    let thinning = Thinning {
        plot,
        blocks,
        minima,
        tolerance,
    };
    let mut lo = 0;
    for &end in rings {
        let hi = end as usize;
        thinning.visvalingam_preserve(floats, words, lo, hi);
        lo = hi;
    }
}

// Links each ring as one of which every point is kept.
fn link_rings(words: &mut [u32], m: Layout, rings: &[u32])
    requires { HasLinks m words.old × (m.points ≤ most_points) × Cuts m.points rings.now }
    ensures { LinkedAll words.old m rings.now words.new }
{
    let mut lo = 0;
    for &end in rings {
        let hi = end as usize;
        links::link(words, m, lo, hi);
        lo = hi;
    }
}

// Lists where each ring ends in the kept list.
fn list_ends(links: Linked, rings: &[u32], ends: &mut [u32])
    requires { (links.m.points ≤ most_points) × Cuts links.m.points rings.now × (length rings.now ≤ length ends.old) }
    ensures { ends.new ≡ over (map (count_below links.entry.words.now links.entry.m) rings.now) ends.old }
{
    for (k, &end) in rings.iter().enumerate() {
        ends[k] = links.count_below(end as usize) as u32;
    }
}
