// A heap of scores in lent memory, with four places below each: a score is pushed and popped.
#![tactic(auto)]

ghost use Rattle.scores.specs.Memory.{Holds};
ghost use Rattle.heap.specs.Heap.{Pushed, Popped};

use layout::Layout;
use scores::CHILDREN;
use vscore::VScore;

// As it is: the slices and their layout stay parameters, as in scores.

// Adds s to the heap of the first len places.
pub fn push(floats: &mut [f64], words: &mut [u32], m: Layout, len: usize, s: VScore)
    requires { Holds m len floats.old words.old }
    ensures { Pushed floats.old words.old m len s floats.new words.new }
{
    let mut j = len;
    // As it is: the next place is the parent of this one, which no range and no iterator yields.
    while 0 < j {
        let p = (j - 1) / CHILDREN;
        let e = scores::load(floats, words, m, p);
        if !s.sooner(e) {
            break;
        }
        scores::store(floats, words, m, j, e);
        j = p;
    }
    scores::store(floats, words, m, j, s);
}

// Takes the first score off the heap of the first n + 1 places.
pub fn pop(floats: &mut [f64], words: &mut [u32], m: Layout, n: usize) -> VScore
    requires { Holds m n floats.old words.old }
    ensures { Popped floats.old words.old m n result floats.new words.new }
{
    let top = scores::load(floats, words, m, 0);
    let s = scores::load(floats, words, m, n);
    let mut j = 0;
    // As it is: the next place is the first of those below this one, which no range and no iterator yields.
    while CHILDREN * j + 1 < n {
        let i = scores::first_of(floats, words, m, CHILDREN * j + 1, n);
        let e = scores::load(floats, words, m, i);
        if !e.sooner(s) {
            break;
        }
        scores::store(floats, words, m, j, e);
        j = i;
    }
    scores::store(floats, words, m, j, s);
    top
}
