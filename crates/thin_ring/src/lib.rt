// One ring thinned in lent memory beside the others, a removal at a time.
#![tactic(auto)]

ghost use Rattle.std.specs.Prelude.{◌≤◌};
ghost use Rattle.rule.specs.Sizes.{most_points};
ghost use Rattle.layout.specs.Layout.{Room};
ghost use Rattle.blocks.specs.Boxes.{Free};
ghost use Rattle.thin_ring.specs.Calls.{of_minima, MoveDone, RunDone, RingDone};

use blocks::Blocks;
use crossing::Present;
use layout::Plot;

// A ring is left alone at the first number of kept points, and where the new segment crosses, at the second.
#[derive(Clone, Copy)]
pub struct Minima {
    pub first: usize,
    pub second: usize,
}

// What stays while rings are thinned: the points, their blocks, the rule's minima and its tolerance.
#[derive(Clone, Copy)]
pub struct Thinning<'a> {
    pub plot: Plot<'a>,
    pub blocks: Blocks,
    pub minima: Minima,
    pub tolerance: f64,
}

impl<'a> Thinning<'a> {
    // Thins the ring from lo to hi, of which every point is kept.
    pub fn visvalingam_preserve(self, floats: &mut [f64], words: &mut [u32], lo: usize, hi: usize)
        requires { Room self.plot.m floats.old words.old × (self.plot.m.points ≤ most_points) × (lo ≤ hi) × (hi ≤ self.plot.m.points)
            × Free self.blocks self.plot.m floats.old }
        ensures { RingDone self.entry.blocks self.entry.plot.x.now self.entry.plot.y.now floats.old words.old self.entry.plot.m lo hi
            (of_minima self.entry.minima) self.entry.tolerance floats.new words.new }
    {
        let len = thin::seed(self.plot, floats, words, lo, hi);
        self.run(floats, words, len, hi - lo);
    }

    // Thins a ring of `count` kept points to its end.
    fn run(self, floats: &mut [f64], words: &mut [u32], mut len: usize, count: usize)
        requires { Room self.plot.m floats.old words.old × (len ≤ self.plot.m.capacity) × Free self.blocks self.plot.m floats.old }
        ensures { RunDone self.entry.blocks self.entry.plot.x.now self.entry.plot.y.now floats.old words.old self.entry.plot.m len count
            (of_minima self.entry.minima) self.entry.tolerance floats.new words.new }
    {
        for kept in (1..=count).rev() {
            if !self.advance(floats, words, &mut len, kept) {
                return;
            }
        }
    }

    // One move of the rule in a ring of `count` kept points: a removal, or false at the ring's end. The number of scores is kept in len.
    fn advance(self, floats: &mut [f64], words: &mut [u32], len: &mut usize, count: usize) -> bool
        requires { Room self.plot.m floats.old words.old × (len.old ≤ self.plot.m.capacity) × Free self.blocks self.plot.m floats.old }
        ensures { MoveDone self.entry.blocks self.entry.plot.x.now self.entry.plot.y.now floats.old words.old self.entry.plot.m len.old count
            (of_minima self.entry.minima) self.entry.tolerance floats.new words.new len.new result }
    {
        let Some(s) = thin::pick(floats, words, self.plot.m, len, self.tolerance) else {
            return false;
        };
        if count <= self.minima.first {
            return false;
        }
        let l = s.left as usize;
        let r = s.right as usize;
        let present = Present {
            plot: self.plot,
            words,
            floats,
            blocks: self.blocks,
        };
        let crossed = crossing::crosses(present, l, r);
        if crossed && count <= self.minima.second {
            return false;
        }
        let demotion = crossed.then_some(self.tolerance);
        thin::remove(self.plot, floats, words, len, s, demotion);
        self.blocks.cover(self.plot, floats, l, r);
        true
    }
}
