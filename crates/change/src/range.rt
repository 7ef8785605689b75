// A range of positions made free, or taken: the Rust's `for_range`.
ghost use Rattle.std.specs.Prelude.{◌≡◌, ◌≤◌, ◌<◌, length};
ghost use Rattle.words.specs.Sizes.{words, cap};
ghost use Rattle.change.specs.Change.{change};

use words::kind::Change;
use words::{sizes, word};

// Changes the positions from a up to b, and the summary bits on the way: one child, or the two at the borders and a fill between.
pub fn for_range(c: Change, k: usize, s: &mut [u16], a: usize, b: usize)
    requires { (k ≤ 6) × (length s.old ≡ words k) × (a < b) × (b ≤ cap k) }
    ensures { s.new ≡ change c k s.old a b }
{
    if k <= 1 {
        if k == 0 {
            s[0] = word::change(c, s[0], a, b);
            return;
        }
        for_words(c, s, a, b);
        return;
    }
    let j = k - 1;
    let size = sizes::child_words(s.len());
    let first = sizes::child_of(j, a);
    let last = sizes::child_of(j, b - 1);
    let from = 1 + first * size;
    let to = from + size;
    let start = sizes::start_of(j, first);
    if first == last {
        for_range(c, j, &mut s[from..to], a - start, b - start);
        s[0] = word::with_bit(s[0], first, s[from] != 0);
        return;
    }
    let from2 = 1 + last * size;
    let to2 = from2 + size;
    for_range(c, j, &mut s[from..to], a - start, sizes::start_of(j, 1));
    s[to..from2].fill(word::change(c, 0, 0, 16));
    for_range(c, j, &mut s[from2..to2], 0, b - sizes::start_of(j, last));
    s[0] = word::change_borders(c, s[0], first, last, s[from] != 0, s[from2] != 0);
}

// The same where the children are leaf words. Beside `for_range`, since by that alone an insert of 20 positions takes 265 instructions for 172
// (docs/DECISIONS.md).
#[tactic(auto, unfolding(words::specs::Sizes::cap, words::specs::Sizes::words))]
pub fn for_words(c: Change, s: &mut [u16], a: usize, b: usize)
    requires { (length s.old ≡ words 1) × (a < b) × (b ≤ cap 1) }
    ensures { s.new ≡ change c 1 s.old a b }
{
    let first = sizes::child_of(0, a);
    let last = sizes::child_of(0, b - 1);
    let i = 1 + first;
    let low = sizes::rest_of(0, a);
    let high = b - sizes::start_of(0, last);
    if first == last {
        s[i] = word::change(c, s[i], low, high);
        s[0] = word::with_bit(s[0], first, s[i] != 0);
        return;
    }
    let m = 1 + last;
    s[i] = word::change(c, s[i], low, 16);
    s[i + 1..m].fill(word::change(c, 0, 0, 16));
    s[m] = word::change(c, s[m], 0, high);
    s[0] = word::change_borders(c, s[0], first, last, s[i] != 0, s[m] != 0);
}
