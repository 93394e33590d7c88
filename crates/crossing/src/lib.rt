// Does a new segment cross a present one: the links of all rings are walked, but for the blocks whose box is apart from the new segment's.
#![tactic(auto)]

ghost use Rattle.std.specs.Prelude.{◌<◌, ◌≤◌, ◌≡◌};
ghost use Rattle.links.specs.Words.{HasLinks};
ghost use Rattle.blocks.specs.Boxes.{HasBoxes};
ghost use Rattle.crossing.specs.Crossing.{LeadsTo, CrossesIs};
ghost use Rattle.crossing.specs.Passing.{left_out, WalkDone};

use blocks::Blocks;
use bounds::Bounds;
use layout::Plot;
use links::Linked;

// The present segments: the points, the links of all rings, and the boxes of their blocks.
#[derive(Clone, Copy)]
pub struct Present<'a> {
    pub plot: Plot<'a>,
    pub words: &'a [u32],
    pub floats: &'a [f64],
    pub blocks: Blocks,
    pub ghost has_links: { HasLinks plot.m words.now },
    pub ghost has_boxes: { HasBoxes blocks floats.now },
}

// geo's `tree_intersect`: the new segment from l to r crosses a present one of any ring, one that shares a point with it and has no end at either of its ends.
// Block after block is walked or skipped, and the points past the last one are walked as one without a box, so that `walk` is called at one place and compiled in.
pub fn crosses(present: Present, l: usize, r: usize) -> bool
    requires { (l < present.plot.m.points) × (r < present.plot.m.points) }
    ensures { let p = present.entry in CrossesIs p.blocks p.plot.m p.plot.x.now p.plot.y.now p.floats.now p.words.now l r result }
{
    let b = present.blocks;
    let points = present.plot.m.points;
    let new = blocks::spanning(present.plot, Bounds::of_none(), l, r);
    let mut from = 0;
    for k in 0..b.number + 1 {
        let end = if k < b.number {
            (k + 1).saturating_mul(b.size).min(points)
        } else {
            points
        };
        if present.leaves_out(k, new, from, end) {
            from = end;
        } else {
            match present.walk(from, end, l, r) {
                None => return true,
                Some(j) => from = j,
            }
        }
    }
    false
}

impl Present<'_> {
    // Block k, which ends at `end`, is left out where the points below `from` are passed: its box is apart from the new segment's.
    fn leaves_out(&self, k: usize, new: Bounds, from: usize, end: usize) -> bool
        ensures { result ≡ left_out self.now.floats.now self.now.blocks k new from end }
    {
        from < end && k < self.blocks.number && self.blocks.bounds_of(self.floats, k).apart(new)
    }

    // Walks from point lo to point hi, or past it, and says how far it came; or nothing, where a present segment stands against the new one from l to r.
    fn walk(&self, lo: usize, hi: usize, l: usize, r: usize) -> Option<usize>
        requires { (hi ≤ self.now.plot.m.points) × (l < self.now.plot.m.points) × (r < self.now.plot.m.points) }
        ensures { let p = self.now in WalkDone p.plot.m p.plot.x.now p.plot.y.now p.words.now lo hi l r result }
    {
        let p = self.plot;
        let left = p.at(l);
        let right = p.at(r);
        let mut i = lo;
        // As it is: a `for` cannot go on by the links.
        while i < hi {
            match self.leads_to(i) {
                None => i += 1,
                Some(j) => {
                    if segment::against(p.at(i), p.at(j), left, right) {
                        return None;
                    }
                    i = j.max(i + 1);
                }
            }
        }
        Some(i)
    }

    // Where the present segment that starts at point i ends, if one does.
    fn leads_to(&self, i: usize) -> Option<usize>
        requires { i < self.now.plot.m.points }
        ensures { LeadsTo self.now.words.now self.now.plot.m i result }
    {
        let m = self.plot.m;
        let links = Linked {
            words: self.words,
            m,
        };
        if !links.kept(i) {
            return None;
        }
        let j = links.next(i) as usize;
        if j < m.points { Some(j) } else { None }
    }
}
