// Where a word stands among the words of its map.
ghost use Rattle.std.specs.Prelude.{◌≡◌, ◌-◌, ◌≤◌, ◌<◌};
ghost use Rattle.words.specs.Sizes.{words, cap};
ghost use Rattle.words.specs.Place.{count, place, leaf_place};

use crate::sizes;

// Where the leaf word of the position p stands in a map of level k, by shifts alone.
pub fn leaf_place(k: usize, p: usize) -> usize
    requires { (k ≤ 6) × (p < cap k) }
    ensures { (result ≡ leaf_place k p) × (result < words k) }
{
    k + (p >> 4) + (p >> 8) + (p >> 12) + (p >> 16) + (p >> 20) + (p >> 24)
}

// Where word j of depth d stands in a map of level k: from the word up to the map's own word, one depth at a time.
pub fn word_place(k: usize, d: usize, j: usize) -> usize
    requires { (k ≤ 6) × (d ≤ k) × (j < count d) }
    ensures { (result ≡ place (k - d) d j) × (result < words k) }
{
    let mut rest = j;
    let mut size = sizes::words_of(k - d);
    let mut at = 0;
    for _up in 0..d {
        at += 1 + rest % 16 * size;
        rest /= 16;
        size = 1 + 16 * size;
    }
    at
}
