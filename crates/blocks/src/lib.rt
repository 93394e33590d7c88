// Boxes of blocks of points in lent memory. `number` blocks of `size` points each, from point 0 on, have a box of four floats each, from `at` on; points past
// the last block have none. A box holds every present segment that starts in its block, and only grows.
#![tactic(auto)]

ghost use Rattle.std.specs.Prelude.{◌≡◌, ◌+◌, ◌*◌, ◌<◌, ◌≤◌};
ghost use Rattle.rule.specs.Sizes.{most_points};
ghost use Rattle.links.specs.Words.{HasLinks};
ghost use Rattle.blocks.specs.Boxes.{box_floats, box_at, stored, spanned, covered, cleared, set_up, BehindHeap, HasBoxes};

use bounds::Bounds;
use layout::{Layout, Plot};
use links::Linked;

// As it is: each call is lent the floats anew, since those before the boxes are the heap's, and a struct of both would be two, for reading and for writing.
#[derive(Clone, Copy)]
pub struct Blocks {
    pub at: usize,
    pub size: usize,
    pub number: usize,
}

impl Blocks {
    // Floats of a box.
    pub const BOX: usize = 4;

    // Of a layout's points, with the boxes right behind the heap, in at most as many floats as there are points; no block where they are too few.
    pub fn behind_heap(m: Layout) -> Blocks
        requires { m.points ≤ most_points }
        ensures { BehindHeap m result }
    {
        let size = block_size(m.points);
        let number = m.points.div_ceil(size);
        let few = Blocks::BOX * number <= m.points;
        Blocks {
            at: m.capacity,
            size,
            number: if few { number } else { 0 },
        }
    }

    // Makes the boxes of all present segments.
    pub fn set_up(self, p: Plot, floats: &mut [f64], words: &[u32])
        requires { HasLinks p.m words.now × HasBoxes self floats.old }
        ensures { floats.new ≡ set_up self p.entry.m p.entry.x.now p.entry.y.now words.now floats.old }
    {
        self.clear(floats);
        let links = Linked { words, m: p.m };
        for i in 0..p.m.points {
            let j = links.next(i) as usize;
            if j < p.m.points {
                self.cover(p, floats, i, j);
            }
        }
    }

    // Makes all boxes those of no point.
    fn clear(self, floats: &mut [f64])
        requires { HasBoxes self floats.old }
        ensures { floats.new ≡ cleared self self.number floats.old }
    {
        for k in 0..self.number {
            self.store(floats, k, Bounds::of_none());
        }
    }

    // Widens the box of the block of i, if it has one, by the segment from i to j.
    pub fn cover(self, p: Plot, floats: &mut [f64], i: usize, j: usize)
        requires { HasBoxes self floats.old × (i < p.m.points) × (j < p.m.points) }
        ensures { floats.new ≡ covered self p.entry.m p.entry.x.now p.entry.y.now i j floats.old }
    {
        let k = i / self.size;
        if k < self.number {
            let wide = spanning(p, self.bounds_of(floats, k), i, j);
            self.store(floats, k, wide);
        }
    }

    // The box of block k.
    pub fn bounds_of(self, floats: &[f64], k: usize) -> Bounds
        requires { HasBoxes self floats.now × (k < self.number) }
        ensures { result ≡ box_at floats.now self k }
    {
        let at = self.at + Blocks::BOX * k;
        let sides = &floats[at..at + Blocks::BOX];
        Bounds {
            west: sides[0],
            east: sides[1],
            south: sides[2],
            north: sides[3],
        }
    }

    // Makes c the box of block k.
    fn store(self, floats: &mut [f64], k: usize, c: Bounds)
        requires { HasBoxes self floats.old × (k < self.number) }
        ensures { floats.new ≡ stored floats.old (self.at + box_floats * k) c }
    {
        let at = self.at + Blocks::BOX * k;
        floats[at..at + Blocks::BOX].copy_from_slice(&[c.west, c.east, c.south, c.north]);
    }
}

// The test of a new segment passes over all boxes and walks some blocks. A box costs about a quarter of a point, so the sizes double until there are no more
// than four times as many blocks as points in one.
fn block_size(points: usize) -> usize
    requires { points ≤ most_points }
    ensures { (0 < result) × (result ≤ most_points) }
{
    let mut size = 8;
    // As it is: nothing counts the doublings.
    while 4 * size < points / size {
        size *= 2;
    }
    size
}

// The bounds c with the points i and j.
pub fn spanning(p: Plot, c: Bounds, i: usize, j: usize) -> Bounds
    requires { (i < p.m.points) × (j < p.m.points) }
    ensures { result ≡ spanned p.entry.m p.entry.x.now p.entry.y.now c i j }
{
    c.widened(p.at(i)).widened(p.at(j))
}
