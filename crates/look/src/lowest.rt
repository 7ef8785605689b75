// Where the lowest set bits lead: the position that a single take takes.
ghost use Rattle.std.specs.Prelude.{◌≡◌, ◌≤◌, length};
ghost use Rattle.words.specs.Below.{below};
ghost use Rattle.words.specs.Bits.{lowest_bit};
ghost use Rattle.words.specs.Sizes.{words};
ghost use Rattle.look.specs.Leads.{leads};

use words::{sizes, word};

// The lowest set bit of a word that has one.
pub(crate) fn lowest_in(w: u16) -> Option<usize>
    ensures { result ≡ below 16 (lowest_bit w) }
{
    if w == 0 {
        return None;
    }
    Some(word::lowest(w))
}

// Follows the lowest set bit of each word down: to a position, and where its leaf word stands.
pub fn lowest(k: usize, s: &[u16]) -> Option<(usize, usize)>
    requires { (k ≤ 6) × (length s.now ≡ words k) }
    ensures { result ≡ leads k s.now }
{
    let mut at = 0;
    let mut p = 0;
    for j in (0..k).rev() {
        let i = lowest_in(s[at])?;
        p = 16 * p + i;
        at = at + 1 + i * sizes::words_of(j);
    }
    let i = lowest_in(s[at])?;
    Some((16 * p + i, at))
}
