// Where a stretch of free positions ends, a leaf word at a time. An end is a place from which the callers go on, so it is a number also
// where the stretch goes on behind it, and no Option.
ghost use Rattle.std.specs.Prelude.{◌≡◌, not, ◌-◌, ◌%◌, ◌≤◌, ◌<◌, length};
ghost use Rattle.words.specs.Search.{first_from};
ghost use Rattle.words.specs.Sizes.{words, cap};
ghost use Rattle.words.specs.Tree.{free?};

use crate::child::child;
use words::kind::Change;
use words::table::by_level;
use words::{sizes, word};

// The first position from key on in key's own leaf word that is not free and seen; the word's end where there is none.
#[cycle(ends)]
pub fn end_in_word(k: usize, s: &[u16], key: usize) -> usize
    requires { (k ≤ 6) × (length s.now ≡ words k) × (key < cap k) }
    ensures { result ≡ first_from (λ p. not (free? k s.now p)) key (16 - key % 16) }
{
    if k == 0 {
        let w = s[0];
        return word::lowest(word::change(Change::Remove, !w, 0, key));
    }
    let j = k - 1;
    let i = sizes::child_of(j, key);
    if !word::test(s[0], i) {
        return key;
    }
    sizes::start_of(j, i) + end_in_below(j, child(j, s, i), sizes::rest_of(j, key))
}

// The same by a table of the levels, so that the compiled code has each level's numbers in it. Not by `by_level`, as `next_below`.
#[cycle(ends)]
pub fn end_in_below(k: usize, s: &[u16], key: usize) -> usize
    requires { (k ≤ 5) × (length s.now ≡ words k) × (key < cap k) }
    ensures { result ≡ first_from (λ p. not (free? k s.now p)) key (16 - key % 16) }
{
    match k {
        0 => end_in_word(0, s, key),
        1 => end_in_word(1, s, key),
        2 => end_in_word(2, s, key),
        3 => end_in_word(3, s, key),
        4 => end_in_word(4, s, key),
        _ => end_in_word(5, s, key),
    }
}

// The first position from a up to b that is not free and seen; b where there is none.
pub fn end_of(k: usize, s: &[u16], a: usize, b: usize) -> usize
    requires { (k ≤ 6) × (length s.now ≡ words k) × (a < b) × (b ≤ cap k) }
    ensures { result ≡ first_from (λ p. not (free? k s.now p)) a (b - a) }
{
    let mut x = a;
    while x < b { // not a `for`: the first turn goes to the end of a's own word
        let r = end_in_word(k, s, x);
        let word_end = (x | 15) + 1;
        if r < word_end {
            return r.min(b);
        }
        x = word_end;
    }
    b
}

// The same by a table of the levels, so that the compiled code has each level's numbers in it.
pub fn end_by_level(k: usize, s: &[u16], a: usize, b: usize) -> usize
    requires { (k ≤ 6) × (length s.now ≡ words k) × (a < b) × (b ≤ cap k) }
    ensures { result ≡ first_from (λ p. not (free? k s.now p)) a (b - a) }
{
    by_level(k, |k| end_of(k, s, a, b))
}
