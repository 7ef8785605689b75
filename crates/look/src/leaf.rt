// Leaf bits, whatever the summary bits over them say: one position's, and whether none of a run is set.
ghost use Rattle.std.specs.Prelude.{◌≡◌, ◌+◌, ◌*◌, ◌≤◌, ◌<◌, length};
ghost use Rattle.words.specs.Search.{none};
ghost use Rattle.words.specs.Sizes.{words, cap};
ghost use Rattle.words.specs.Tree.{leaf?};
ghost use Rattle.words.specs.Place.{row_bit};

use words::sizes::BitAlloc256;
use words::{place, sizes, word};

// Whether the leaf bit of the position p is set.
pub fn leaf_bit(k: usize, s: &[u16], p: usize) -> bool
    requires { (k ≤ 6) × (length s.now ≡ words k) × (p < cap k) }
    ensures { result ≡ leaf? k s.now p }
{
    word::test(s[place::leaf_place(k, p)], p & 15)
}

// Whether no leaf bit from a up to b is set: it stops at the first leaf word that has one.
pub fn all_taken(k: usize, s: &[u16], a: usize, b: usize) -> bool
    requires { (k ≤ 6) × (length s.now ≡ words k) × (a < b) × (b ≤ cap k) }
    ensures { result ≡ none (leaf? k s.now) a b }
{
    let mut p = a;
    while p < b { // not a `for`: the first turn goes to the end of a's own row
        let low = sizes::rest_of(0, p);
        let row = p - sizes::rest_of(1, p) + BitAlloc256::CAP; // up to there the leaf words stand side by side
        let end = row.min(b);
        if !row_taken(s, place::leaf_place(k, p), low, low + (end - p)) {
            return false;
        }
        p = end;
    }
    true
}

// Whether no bit from a up to b is set, of the words in a row from `at` on. The row is named by its place in the map, as its definition
// names it.
fn row_taken(s: &[u16], at: usize, a: usize, b: usize) -> bool
    requires { (a < 16) × (a < b) × (b ≤ 256) × (at * 16 + b ≤ length s.now * 16) }
    ensures { result ≡ none (row_bit s.now at) a b }
{
    let last = sizes::child_of(0, b - 1);
    let mut from = a;
    for &w in &s[at..at + last] {
        if !word::clear(w, from, 16) {
            return false;
        }
        from = 0;
    }
    word::clear(s[at + last], from, b - sizes::start_of(0, last))
}
