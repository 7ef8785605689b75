// The lowest aligned run of free positions.
ghost use Rattle.std.specs.Prelude.{◌≡◌, false, ◌≤◌, ◌<◌, length};
ghost use Rattle.words.specs.Below.{below};
ghost use Rattle.words.specs.Sizes.{words, cap};
ghost use Rattle.words.specs.Tree.{free?};
ghost use Rattle.words.specs.Run.{misfit, run_in};

use crate::{next, stretch};
use words::{align, sizes};

// Where the lowest run of size positions at a multiple of 2^align_log2 starts.
pub fn find_contiguous(k: usize, s: &[u16], size: usize, align_log2: usize) -> Option<usize>
    requires { (k ≤ 6) × (length s.now ≡ words k) × (0 < size) × (misfit (cap k) align_log2 ≡ false) }
    ensures { result ≡ below (cap k) (run_in (free? k s.now) (cap k) size align_log2) }
{
    let cap = sizes::cap_of(k);
    let mut at = 0;
    while at < cap { // not a `for`: a turn goes on by as much as its look-ups passed
        let base = align::align_up_log2(at, align_log2);
        if cap - base < size {
            return None;
        }
        let to = base + size;
        let end = stretch::end_by_level(k, s, base, to);
        if end == to {
            return Some(base);
        }
        at = end + 1;
        // With an alignment the next base is worth a try of its own, but not behind one that is not free.
        if (end == base || align_log2 == 0) && at < cap {
            at = next::next_by_level(k, s, at)?;
        }
    }
    None
}
