// Neighbours and marks of points in lent memory: `points` words each, from `links` on. The number of points stands for no neighbour.
#![tactic(auto)]

ghost use Rattle.std.specs.Prelude.{◌≡◌, ◌<◌, ◌≤◌, eqb, length};
ghost use Rattle.rule.specs.Sizes.{most_points};
ghost use Rattle.links.specs.Words.{HasLinks, previous_at, next_at, mark_at, written, linked_as, unlinked};
ghost use Rattle.links.specs.Ring.{kept_from, all_unmarked};
ghost use Rattle.links.specs.Calls.{back, ahead, Joined, LiveIs, Listed};

use layout::Layout;
use vscore::VScore;

// Links the points from lo to hi as a ring of which every point is kept.
// As it is: the words to be written stay a parameter, here and below: of a struct of a `&mut` slice each contract would have to say that it stays the same.
pub fn link(words: &mut [u32], m: Layout, lo: usize, hi: usize)
    requires { HasLinks m words.old × (m.points ≤ most_points) × (lo ≤ hi) × (hi ≤ m.points) }
    ensures { Joined words.old m lo hi words.new }
{
    for i in lo..hi {
        let p = if lo < i { i - 1 } else { m.points };
        let q = if i + 1 < hi { i + 1 } else { m.points };
        join(words, m, i, p as u32, q as u32);
    }
}

// Takes s's point out.
pub fn unlink(words: &mut [u32], m: Layout, s: VScore)
    requires { HasLinks m words.old × (s.left < m.points) × (s.current < m.points) × (s.right < m.points) }
    ensures { words.new ≡ unlinked words.old m s }
{
    words[m.links + s.right as usize] = s.left;
    words[m.links + m.points + s.left as usize] = s.right;
    words[m.links + 2 * m.points + s.current as usize] = 1;
}

// The links of a layout's points in lent words, to read.
#[derive(Clone, Copy)]
pub struct Linked<'a> {
    pub words: &'a [u32],
    pub m: Layout,
    pub ghost has_links: { HasLinks m words.now },
}

impl Linked<'_> {
    // The score is of a kept point and its present neighbours.
    pub fn live(self, s: VScore) -> bool
        ensures { LiveIs self.entry.words.now self.entry.m s result }
    {
        let n = self.m.points;
        let c = s.current as usize;
        if n <= s.left as usize || n <= c || n <= s.right as usize {
            return false;
        }
        // As it is: one test and not three, which is faster (docs/PERFORMANCE.md).
        self.kept(c) & (self.previous(c) == s.left) & (self.next(c) == s.right)
    }

    // How many points are kept.
    pub fn count_kept(self) -> usize
        ensures { result ≡ length (all_unmarked self.entry.words.now self.entry.m) }
    {
        self.count_below(self.m.points)
    }

    // How many points below hi are kept.
    pub fn count_below(self, hi: usize) -> usize
        requires { hi ≤ self.m.points }
        ensures { (result ≤ hi) × (result ≡ length (kept_from (mark_at self.entry.words.now self.entry.m) 0 hi)) }
    {
        let mut below = 0;
        // As it is: a `filter` with its `count` goes from one kept point to the next, which takes a branch at each mark and is slower.
        for i in 0..hi {
            if self.kept(i) {
                below += 1;
            }
        }
        below
    }

    // Lists the kept points from the start of out, as far as there is room, and says how many.
    pub fn list_kept(self, out: &mut [u32]) -> usize
        requires { self.m.points ≤ most_points }
        ensures { Listed self.entry.words.now self.entry.m out.old out.new result }
    {
        let mut count = 0;
        for i in 0..self.m.points {
            // As it is: after `get_mut` or `iter_mut` of a slice a proof knows its length and no element.
            if self.kept(i) && count < out.len() {
                out[count] = i as u32;
                count += 1;
            }
        }
        count
    }

    // As it is: document 01 has the number of points stand for no neighbour, and lent memory may hold any word there.
    pub fn previous(self, i: usize) -> u32
        requires { i < self.m.points }
        ensures { result ≡ previous_at self.entry.words.now self.entry.m i }
    {
        self.words[self.m.links + i]
    }

    // As it is: as `previous`.
    pub fn next(self, i: usize) -> u32
        requires { i < self.m.points }
        ensures { result ≡ next_at self.entry.words.now self.entry.m i }
    {
        self.words[self.m.links + self.m.points + i]
    }

    // Point i has no mark.
    pub fn kept(self, i: usize) -> bool
        requires { i < self.m.points }
        ensures { result ≡ eqb (mark_at self.entry.words.now self.entry.m i) 0 }
    {
        self.words[self.m.links + 2 * self.m.points + i] == 0
    }
}

// Keeps point i between p and q.
fn join(words: &mut [u32], m: Layout, i: usize, p: u32, q: u32)
    requires { HasLinks m words.old × (i < m.points) }
    ensures { words.new ≡ linked_as words.old m i p q }
{
    words[m.links + i] = p;
    words[m.links + m.points + i] = q;
    words[m.links + 2 * m.points + i] = 0;
}
