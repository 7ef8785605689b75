// The next free position: a word asks its children in turn, and each child asks its own.
ghost use Rattle.std.specs.Prelude.{◌≡◌, suc, ◌*◌, ◌≤◌, ◌<◌, length};
ghost use Rattle.words.specs.Below.{below};
ghost use Rattle.words.specs.Sizes.{words, cap};
ghost use Rattle.words.specs.Tree.{free?};
ghost use Rattle.words.specs.Run.{next_in};

use crate::child::child;
use crate::lowest::lowest_in;
use words::kind::Change;
use words::table::by_level;
use words::{sizes, word};

// The lowest position from key on that is free and seen.
#[cycle(seek)]
pub fn next_node(k: usize, s: &[u16], key: usize) -> Option<usize>
    requires { (k ≤ 6) × (length s.now ≡ words k) × (key < cap k) }
    ensures { result ≡ below (cap k) (next_in (free? k s.now) (cap k) key) }
{
    if k == 0 {
        let q = word::next(s[0], key);
        return if q < 16 { Some(q) } else { None };
    }
    let j = k - 1;
    let i = sizes::child_of(j, key);
    if word::test(s[0], i) {
        if let Some(q) = next_below(j, child(j, s, i), sizes::rest_of(j, key)) {
            return Some(sizes::start_of(j, i) + q);
        }
    }
    next_children(j, s, i + 1)
}

// The same by a table of the levels, so that the compiled code has each level's numbers in it. Not by `by_level`: a closure would be one
// more of the cycle, with a measure and these clauses once more.
#[cycle(seek)]
pub fn next_below(k: usize, s: &[u16], key: usize) -> Option<usize>
    requires { (k ≤ 5) × (length s.now ≡ words k) × (key < cap k) }
    ensures { result ≡ below (cap k) (next_in (free? k s.now) (cap k) key) }
{
    match k {
        0 => next_node(0, s, key),
        1 => next_node(1, s, key),
        2 => next_node(2, s, key),
        3 => next_node(3, s, key),
        4 => next_node(4, s, key),
        _ => next_node(5, s, key),
    }
}

// The lowest such position in the children from i on, each of level j. A child whose summary bit is 0 is not entered.
#[cycle(seek)]
pub fn next_children(j: usize, s: &[u16], i: usize) -> Option<usize>
    requires { (j ≤ 5) × (length s.now ≡ words (suc j)) × (i ≤ 16) }
    ensures { result ≡ below (cap (suc j)) (next_in (free? (suc j) s.now) (cap (suc j)) (i * cap j)) }
{
    let w = s[0];
    let mut from = i;
    // not a `for`: a turn goes on behind the child that it looked into
    while let Some(at) = lowest_in(word::change(Change::Remove, w, 0, from)) {
        if let Some(q) = next_below(j, child(j, s, at), 0) {
            return Some(sizes::start_of(j, at) + q);
        }
        from = at + 1;
    }
    None
}

// The look-up from outside of the recursion, by a table of its own: entered by `next_below` the recursion is not unfolded.
pub fn next_by_level(k: usize, s: &[u16], key: usize) -> Option<usize>
    requires { (k ≤ 6) × (length s.now ≡ words k) × (key < cap k) }
    ensures { result ≡ below (cap k) (next_in (free? k s.now) (cap k) key) }
{
    by_level(k, |k| next_node(k, s, key))
}
