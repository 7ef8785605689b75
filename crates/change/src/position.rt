// One position taken or given back. From the leaf word up, a word's summary bit is touched only where the word turned; above the first
// word that did not, nothing is read or stored.
ghost use Rattle.std.specs.Prelude.{◌≡◌, true, cond, suc, ◌+◌, ◌≤◌, ◌<◌, eqb, length, set};
ghost use Rattle.words.specs.declared.kind.Change.TheVariants.{Insert, Remove};
ghost use Rattle.words.specs.Bits.{bit, word_of};
ghost use Rattle.words.specs.Turn.{turn};
ghost use Rattle.words.specs.Sizes.{words, cap};
ghost use Rattle.words.specs.Tree.{own};
ghost use Rattle.words.specs.Place.{leaf_place};
ghost use Rattle.words.specs.Take.{lowest};
ghost use Rattle.change.specs.Change.{change};
ghost use Rattle.change.specs.Single.{single, gives};

use words::turn::Turn;
use words::{sizes, word};

// Takes the position p that the lowest set bits lead to: its leaf bit is cleared, and above it the bit of each word that became empty.
// It goes up by the words' indices in the map.
pub fn take(k: usize, s: &mut [u16], leaf: usize, p: usize)
    requires { (k ≤ 6) × (length s.old ≡ words k) × (p < cap k) × (lowest k s.old ≡ p) × (leaf ≡ leaf_place k p) }
    ensures { s.new ≡ change Remove k s.old p (p + 1) }
{
    let old = s[leaf];
    let new = word::take(old);
    s[leaf] = new.word;
    let mut turn = new.turn;
    let mut at = leaf;
    let mut rest = p >> 4;
    let mut size = 1;
    for _ in 0..k {
        let Turn::BecameEmpty = turn else {
            return;
        };
        at = at - 1 - rest % 16 * size;
        let new = word::take(s[at]);
        s[at] = new.word;
        turn = new.turn;
        rest = rest >> 4;
        size = 1 + 16 * size;
    }
}

// Gives the position p back in a map of level k, and tells how its own word turned; nothing where the position was free already.
// Inlined, so that a caller that knows the level hands it on as a constant.
#[inline(always)]
pub fn give(k: usize, s: &mut [u16], p: usize) -> Option<Turn>
    requires { (k ≤ 6) × (length s.old ≡ words k) × (p < cap k) }
    ensures value { result ≡ gives k s.old p }
    ensures s_after { s.new ≡ single Insert k s.old p }
{
    if k == 0 {
        return give_leaf(s, p);
    }
    give_node(k - 1, s, p)
}

// The same where the children have the level j: the child gives the position back, and its bit is set if its own word became not empty.
// Inlined into the table below, which then calls none but itself, at levels that are constants.
#[cycle(give_down)]
#[inline(always)]
fn give_node(j: usize, s: &mut [u16], p: usize) -> Option<Turn>
    requires { (j ≤ 5) × (length s.old ≡ words (suc j)) × (p < cap (suc j)) }
    ensures value { result ≡ gives (suc j) s.old p }
    ensures s_after { s.new ≡ single Insert (suc j) s.old p }
{
    let size = sizes::words_of(j);
    let i = sizes::child_of(j, p);
    let from = 1 + i * size;
    let to = from + size;
    let turn = give_below(j, &mut s[from..to], sizes::rest_of(j, p))?;
    match turn {
        Turn::BecameNotEmpty => Some(give_own(s, i)),
        _ => Some(turn),
    }
}

// The child's, by a table of the levels, so that the compiled code has each level's numbers in it. The hint and the leaf as the last arm let it
// be unfolded from level 4 down. Not by `by_level`: a closure would be one more of the cycle, with a measure and these clauses once more.
#[cycle(give_down)]
#[inline]
fn give_below(k: usize, s: &mut [u16], p: usize) -> Option<Turn>
    requires { (k ≤ 5) × (length s.old ≡ words k) × (p < cap k) }
    ensures value { result ≡ gives k s.old p }
    ensures s_after { s.new ≡ single Insert k s.old p }
{
    match k {
        1 => give_node(0, s, p),
        2 => give_node(1, s, p),
        3 => give_node(2, s, p),
        4 => give_node(3, s, p),
        5 => give_node(4, s, p),
        _ => give_leaf(s, p),
    }
}

// A leaf word's: its bit is set already where the word would stay the same.
#[tactic(auto, unfolding(words::specs::Sizes::words, words::specs::Sizes::cap))]
fn give_leaf(s: &mut [u16], p: usize) -> Option<Turn>
    requires { (length s.old ≡ words 0) × (p < cap 0) }
    ensures value { result ≡ gives 0 s.old p }
    ensures s_after { s.new ≡ single Insert 0 s.old p }
{
    let old = s[0];
    let new = word::give(old, p);
    if new.word == old {
        return None;
    }
    s[0] = new.word;
    Some(new.turn)
}

// A summary word's: its bit i is set.
fn give_own(s: &mut [u16], i: usize) -> Turn
    requires { (0 < length s.old) × (i < 16) }
    ensures value { result ≡ turn (own s.old) (own s.new) }
    ensures s_after { s.new ≡ set s.old 0 (word_of (λ m. cond (eqb m i) true (bit (own s.old) m))) }
{
    let own = word::give(s[0], i);
    s[0] = own.word;
    own.turn
}
