// The calls of runs on a map of level k over its lent words, as map.rt.
ghost use Rattle.std.specs.Prelude.{◌≡◌, ◌≤◌, ◌<◌, leb, length};
ghost use Rattle.words.specs.Sizes.{words, cap};
ghost use Rattle.change.specs.GiveBack.{first_leaf};
ghost use Rattle.bitmap.specs.Answer.{taken, changed};
ghost use Rattle.bitmap.specs.Calls.{misplaced, run_says, run_after, give_run_says};
ghost use Rattle.bitmap.specs.Ways.{given_back, given_after};

use crate::map;
use crate::refusal::Refusal;
use crate::way::Way;
use change::{give_back, range};
use look::{contiguous, leaf, stretch};
use words::kind::Change;
use words::{align, sizes};

// Whether the alignment is none of a map of cap positions, or not that of the base.
fn misplaced(cap: usize, base: Option<usize>, align_log2: usize) -> bool
    ensures { result ≡ misplaced base align_log2 cap }
{
    match base {
        None => align::misfits(cap, align_log2),
        Some(b) => align::misfits(cap, align_log2) || !align::is_aligned_log2(b, align_log2),
    }
}

// The run that a take gets, or the refusal.
fn find_run(
    k: usize,
    s: &[u16],
    base: Option<usize>,
    size: usize,
    align_log2: usize,
) -> Result<usize, Refusal>
    requires { (k ≤ 6) × (length s.now ≡ words k) }
    ensures { taken result ≡ run_says base size align_log2 k s.now }
{
    let cap = sizes::cap_of(k);
    if misplaced(cap, base, align_log2) {
        return Err(Refusal::Alignment);
    }
    if size == 0 { // an empty run would fit everywhere
        return Err(Refusal::NoSize);
    }
    match base {
        None => contiguous::find_contiguous(k, s, size, align_log2).ok_or(Refusal::NoneFree),
        Some(b) => {
            let to = align::run_end(b, size);
            if cap < to {
                return Err(Refusal::PastEnd);
            }
            if stretch::end_by_level(k, s, b, to) == to {
                Ok(b)
            } else {
                Err(Refusal::NoneFree)
            }
        }
    }
}

// Takes that run.
fn alloc_run(
    k: usize,
    s: &mut [u16],
    base: Option<usize>,
    size: usize,
    align_log2: usize,
) -> Result<usize, Refusal>
    requires { (k ≤ 6) × (length s.old ≡ words k) }
    ensures result_value { taken result ≡ run_says base size align_log2 k s.old }
    ensures s_after { s.new ≡ run_after base size align_log2 k s.old }
{
    let b = find_run(k, s, base, size, align_log2)?;
    range::for_range(Change::Remove, k, s, b, b + size);
    Ok(b)
}

// Takes a run: the lowest that is aligned, or the one at the given base. A run of one anywhere is a single take, unless the map's summary
// bits lead that astray.
pub fn alloc_contiguous(
    k: usize,
    s: &mut [u16],
    base: Option<usize>,
    size: usize,
    align_log2: usize,
) -> Result<usize, Refusal>
    requires { (k ≤ 6) × (length s.old ≡ words k) }
    ensures result_value { taken result ≡ run_says base size align_log2 k s.old }
    ensures s_after { s.new ≡ run_after base size align_log2 k s.old }
{
    if base.is_none() && size == 1 && align_log2 == 0 {
        if let Ok(p) = map::alloc_one(k, s) {
            return Ok(p);
        }
    }
    alloc_run(k, s, base, size, align_log2)
}

// Gives the positions from a up to b back, one way or the other: whether none of them was free.
fn give_back(way: Way, k: usize, s: &mut [u16], a: usize, b: usize) -> bool
    requires { (k ≤ 6) × (length s.old ≡ words k) × (a < b) × (b ≤ cap k) }
    ensures value { result ≡ leb b (first_leaf k s.old a b) }
    ensures s_after { s.new ≡ given_back way k s.old a b }
{
    match way {
        Way::Whole => {
            if !leaf::all_taken(k, s, a, b) {
                return false;
            }
            range::for_range(Change::Insert, k, s, a, b);
            true
        }
        Way::Old => give_back::dealloc_contiguous_old(k, s, a, b),
    }
}

// Gives size positions from base on back, one way or the other.
pub fn dealloc_contiguous(
    way: Way,
    k: usize,
    s: &mut [u16],
    base: usize,
    size: usize,
) -> Result<(), Refusal>
    requires { (k ≤ 6) × (length s.old ≡ words k) }
    ensures result_value { changed result ≡ give_run_says base size k s.old }
    ensures s_after { s.new ≡ given_after way base size k s.old }
{
    let end = align::run_end(base, size);
    map::ranged(k, base, end)?;
    if !give_back(way, k, s, base, end) {
        return Err(Refusal::AlreadyFree);
    }
    Ok(())
}
