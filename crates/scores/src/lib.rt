// Scores in lent memory: place j has its area at floats[j] and left, current and right at words[heap + 3 j ..]. A score is loaded and stored, and of the
// places that stand below one the first is found.
#![tactic(auto)]

ghost use Rattle.std.specs.Prelude.{◌≡◌, ◌+◌, ◌<◌, ◌≤◌, length};
ghost use Rattle.scores.specs.Memory.{Holds, score_at, put_floats, put_words};
ghost use Rattle.scores.specs.Children.{children, child_at, IsChild, sooner_of, FirstOf, First};

use layout::Layout;
use vscore::VScore;

// As it is: what is asked of the two slices is room up to one place, another at each call, which no type of theirs can say.

// The places below a place.
pub const CHILDREN: usize = 4;

// A place that stands below another, and the area there.
// As it is: a place alone, with its area read again, is slower.
#[derive(Clone, Copy)]
struct Child {
    place: usize,
    area: f64,
}

// Of the places from c on, at most four and below n, the one that is not after the others.
// As it is: four are compared in two rounds without a branch, which is faster than the walk that fewer take.
pub fn first_of(floats: &[f64], words: &[u32], m: Layout, c: usize, n: usize) -> usize
    requires { (c < n) × Holds m n floats.now words.now }
    ensures { FirstOf floats.now words.now m c n result }
{
    if n - c < CHILDREN {
        return first_of_few(floats, words, m, c, n);
    }
    let one = first_of_two(floats, words, m, c);
    let other = first_of_two(floats, words, m, c + 2);
    sooner_of(floats, words, m, one, other).place
}

// The same where there are no more than that.
fn first_of_few(floats: &[f64], words: &[u32], m: Layout, c: usize, n: usize) -> usize
    requires { (c < n) × (n ≤ c + children) × Holds m n floats.now words.now }
    ensures { FirstOf floats.now words.now m c n result }
{
    let mut first = child_at(floats, c);
    for d in c + 1..n {
        first = sooner_of(floats, words, m, first, child_at(floats, d));
    }
    first.place
}

// The same of c and c + 1, with the area there.
fn first_of_two(floats: &[f64], words: &[u32], m: Layout, c: usize) -> Child
    requires { Holds m (c + 1) floats.now words.now }
    ensures { First floats.now words.now m c (c + 2) result }
{
    let a = child_at(floats, c);
    let b = child_at(floats, c + 1);
    sooner_of(floats, words, m, a, b)
}

// Of two, the one that is not after the other.
// As it is: the areas alone mostly tell, and then the choice takes no branch. Comparing two loaded scores, or an `if` as the value, takes one and is slower.
#[tactic(auto, unfolding(crate::specs::Children::sooner_of, vscore::specs::Score::sooner))]
fn sooner_of(floats: &[f64], words: &[u32], m: Layout, a: Child, b: Child) -> Child
    requires { IsChild floats.now words.now m a × IsChild floats.now words.now m b }
    ensures { result ≡ sooner_of floats.now words.now m a b }
{
    if b.area == a.area {
        let s = load(floats, words, m, a.place);
        let t = load(floats, words, m, b.place);
        if t.sooner(s) {
            return b;
        }
        return a;
    }
    if b.area < a.area {
        return b;
    }
    a
}

fn child_at(floats: &[f64], j: usize) -> Child
    requires { j < length floats.now }
    ensures { result ≡ child_at floats.now j }
{
    Child {
        place: j,
        area: floats[j],
    }
}

// The score at a place.
pub fn load(floats: &[f64], words: &[u32], m: Layout, j: usize) -> VScore
    requires { Holds m j floats.now words.now }
    ensures { result ≡ score_at floats.now words.now m j }
{
    let a = m.heap + 3 * j;
    VScore::new(words[a], words[a + 1], words[a + 2], floats[j])
}

// As it is: the three words copied as one slice are slower, and push and pop store at each place that they pass.
pub fn store(floats: &mut [f64], words: &mut [u32], m: Layout, j: usize, s: VScore)
    requires { Holds m j floats.old words.old }
    ensures { (floats.new ≡ put_floats floats.old j s) × (words.new ≡ put_words words.old m j s) }
{
    let a = m.heap + 3 * j;
    floats[j] = s.area;
    words[a] = s.left;
    words[a + 1] = s.current;
    words[a + 2] = s.right;
}
