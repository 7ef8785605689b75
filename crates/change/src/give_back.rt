// A run given back the crate's way: leaf word by leaf word, up to the first that has a free position.
ghost use Rattle.std.specs.Prelude.{◌≡◌, ◌*◌, ◌≤◌, ◌<◌, leb, length};
ghost use Rattle.words.specs.Sizes.{words, cap};
ghost use Rattle.change.specs.Change.{low, high};
ghost use Rattle.change.specs.GiveBack.{first_leaf, give_back};

use words::kind::Change;
use words::{sizes, word};

// Where the range that starts at a starts in child i of level j.
#[tactic(auto, unfolding(crate::specs::Change::low))]
pub fn low_of(j: usize, a: usize, i: usize) -> usize
    requires { (j ≤ 5) × (i < 16) }
    ensures { result ≡ low (cap j) a i }
{
    a.saturating_sub(sizes::start_of(j, i))
}

// Where the range that ends at b ends in child i of level j.
#[tactic(auto, unfolding(crate::specs::Change::high))]
pub fn high_of(j: usize, b: usize, i: usize) -> usize
    requires { (j ≤ 5) × (i < 16) × (i * cap j ≤ b) }
    ensures { result ≡ high (cap j) b i }
{
    sizes::cap_of(j).min(b - sizes::start_of(j, i))
}

// The crate's run give-back of the positions from a up to b: whether none of them was free.
#[cycle(old_way)]
pub fn dealloc_contiguous_old(k: usize, s: &mut [u16], a: usize, b: usize) -> bool
    requires { (k ≤ 6) × (length s.old ≡ words k) × (a < b) × (b ≤ cap k) }
    ensures value { result ≡ leb b (first_leaf k s.old a b) }
    ensures s_after { s.new ≡ give_back k s.old a b }
{
    if k == 0 {
        let w = s[0];
        if !word::clear(w, a, b) {
            return false;
        }
        s[0] = word::change(Change::Insert, w, a, b);
        return true;
    }
    let j = k - 1;
    let size = sizes::words_of(j);
    let end = sizes::child_of(j, b - 1) + 1;
    let mut w = s[0];
    let mut ok = true;
    // by number: the child's words, its part of the range and its bit are found by it
    for i in sizes::child_of(j, a)..end {
        let from = 1 + i * size;
        let to = from + size;
        if ok {
            ok = dealloc_contiguous_old_below(
                j,
                &mut s[from..to],
                low_of(j, a, i),
                high_of(j, b, i),
            );
        }
        w = word::with_bit(w, i, s[from] != 0);
    }
    s[0] = w;
    ok
}

// The same by a table of the levels, so that the compiled code has each level's numbers in it. Not by `by_level`: a closure would be one
// more of the cycle, with a measure and these clauses once more.
#[cycle(old_way)]
pub fn dealloc_contiguous_old_below(k: usize, s: &mut [u16], a: usize, b: usize) -> bool
    requires { (k ≤ 5) × (length s.old ≡ words k) × (a < b) × (b ≤ cap k) }
    ensures value { result ≡ leb b (first_leaf k s.old a b) }
    ensures s_after { s.new ≡ give_back k s.old a b }
{
    match k {
        0 => dealloc_contiguous_old(0, s, a, b),
        1 => dealloc_contiguous_old(1, s, a, b),
        2 => dealloc_contiguous_old(2, s, a, b),
        3 => dealloc_contiguous_old(3, s, a, b),
        4 => dealloc_contiguous_old(4, s, a, b),
        _ => dealloc_contiguous_old(5, s, a, b),
    }
}
