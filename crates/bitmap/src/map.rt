// The calls on a map of level k over its lent words, in the Rust's order, but for those of runs. Each decides its refusals in document
// 01's order by what it looks up, and then makes its change: specs/Calls.antt has what each says and leaves. The level and the words are two
// parameters, with one fact in each contract: change/src/lib.rt says why they are no struct.
ghost use Rattle.std.specs.Prelude.{◌≡◌, ◌≤◌, length};
ghost use Rattle.words.specs.Sizes.{words};
ghost use Rattle.bitmap.specs.Answer.{given, taken, changed, told};
ghost use Rattle.bitmap.specs.Calls.{alloc_says, alloc_after, next_says, give_says, give_after, ranged, range_says, range_after, empty_says, test_says, check_says};

use crate::refusal::Refusal;
use change::{position, range};
use look::{check, leaf, lowest, next};
use words::kind::Change;
use words::sizes;
use words::table::by_level;

// Takes the position that the lowest set bits lead to.
fn alloc_in(k: usize, s: &mut [u16]) -> Result<usize, Refusal>
    requires { (k ≤ 6) × (length s.old ≡ words k) }
    ensures result_value { taken result ≡ alloc_says k s.old }
    ensures s_after { s.new ≡ alloc_after k s.old }
{
    if s[0] == 0 {
        return Err(Refusal::NoneFree);
    }
    let (p, leaf) = lowest::lowest(k, s).ok_or(Refusal::Untrue)?;
    position::take(k, s, leaf, p);
    Ok(p)
}

// The same by a table of the levels in use, so that each gets code of its own. `by_level` can't serve here and in the two others that
// change words: a closure would borrow them, and nothing is known afterwards of what a closure that was handed over has changed.
pub fn alloc(k: usize, s: &mut [u16]) -> Result<usize, Refusal>
    requires { (k ≤ 6) × (length s.old ≡ words k) }
    ensures result_value { taken result ≡ alloc_says k s.old }
    ensures s_after { s.new ≡ alloc_after k s.old }
{
    match k {
        2 => alloc_in(2, s),
        3 => alloc_in(3, s),
        4 => alloc_in(4, s),
        _ => alloc_in(k, s),
    }
}

// The same once more for a run of one: shared with `alloc`, neither is inlined. Not by `by_level`: what its closure leaves in s, lent to it
// to be written, its contract doesn't say.
pub fn alloc_one(k: usize, s: &mut [u16]) -> Result<usize, Refusal>
    requires { (k ≤ 6) × (length s.old ≡ words k) }
    ensures result_value { taken result ≡ alloc_says k s.old }
    ensures s_after { s.new ≡ alloc_after k s.old }
{
    match k {
        0 => alloc_in(0, s),
        1 => alloc_in(1, s),
        2 => alloc_in(2, s),
        3 => alloc_in(3, s),
        4 => alloc_in(4, s),
        5 => alloc_in(5, s),
        _ => alloc_in(6, s),
    }
}

// Looks the lowest free position from key on up.
pub fn next(k: usize, s: &[u16], key: usize) -> Result<usize, Refusal>
    requires { (k ≤ 6) × (length s.now ≡ words k) }
    ensures { taken result ≡ next_says key k s.now }
{
    if sizes::cap_of(k) <= key {
        return Err(Refusal::NoneFree);
    }
    next::next_node(k, s, key).ok_or(Refusal::NoneFree)
}

// Gives the position key back. Inlined, so that each arm below has a level that is a constant before anything is unfolded.
#[inline(always)]
fn dealloc_in(k: usize, s: &mut [u16], key: usize) -> Result<(), Refusal>
    requires { (k ≤ 6) × (length s.old ≡ words k) }
    ensures result_value { changed result ≡ give_says key k s.old }
    ensures s_after { s.new ≡ give_after key k s.old }
{
    if sizes::cap_of(k) <= key {
        return Err(Refusal::PastEnd);
    }
    match position::give(k, s, key) {
        None => Err(Refusal::AlreadyFree),
        Some(_) => Ok(()),
    }
}

// The same by a table of the levels in use, and of level 1, which by the last arm took twice as many instructions. Not by `by_level`, as
// `alloc`.
pub fn dealloc(k: usize, s: &mut [u16], key: usize) -> Result<(), Refusal>
    requires { (k ≤ 6) × (length s.old ≡ words k) }
    ensures result_value { changed result ≡ give_says key k s.old }
    ensures s_after { s.new ≡ give_after key k s.old }
{
    match k {
        1 => dealloc_in(1, s, key),
        2 => dealloc_in(2, s, key),
        3 => dealloc_in(3, s, key),
        4 => dealloc_in(4, s, key),
        _ => dealloc_in(k, s, key),
    }
}

// The refusals of a range: done where it is neither out of the map nor empty.
pub fn ranged(k: usize, start: usize, end: usize) -> Result<(), Refusal>
    requires { k ≤ 6 }
    ensures { changed result ≡ ranged start end k (given 0) }
{
    if end < start || sizes::cap_of(k) < end {
        return Err(Refusal::PastEnd);
    }
    if start == end {
        return Err(Refusal::NoSize);
    }
    Ok(())
}

// Makes the positions from start up to end free, or taken.
pub fn for_range(
    c: Change,
    k: usize,
    s: &mut [u16],
    start: usize,
    end: usize,
) -> Result<(), Refusal>
    requires { (k ≤ 6) × (length s.old ≡ words k) }
    ensures result_value { changed result ≡ range_says start end k s.old }
    ensures s_after { s.new ≡ range_after c start end k s.old }
{
    ranged(k, start, end)?;
    range::for_range(c, k, s, start, end);
    Ok(())
}

// Whether no position is free: the own word is 0.
pub fn is_empty(k: usize, s: &[u16]) -> Result<bool, Refusal>
    requires { (k ≤ 6) × (length s.now ≡ words k) }
    ensures { told result ≡ empty_says k s.now }
{
    Ok(s[0] == 0)
}

// Whether the leaf bit of the position key is set.
fn test_in(k: usize, s: &[u16], key: usize) -> Result<bool, Refusal>
    requires { (k ≤ 6) × (length s.now ≡ words k) }
    ensures { told result ≡ test_says key k s.now }
{
    if key < sizes::cap_of(k) {
        Ok(leaf::leaf_bit(k, s, key))
    } else {
        Err(Refusal::PastEnd)
    }
}

// The same by a table of the levels.
pub fn test(k: usize, s: &[u16], key: usize) -> Result<bool, Refusal>
    requires { (k ≤ 6) × (length s.now ≡ words k) }
    ensures { told result ≡ test_says key k s.now }
{
    by_level(k, |k| test_in(k, s, key))
}

// Whether the map is true.
pub fn check(k: usize, s: &[u16]) -> Result<bool, Refusal>
    requires { (k ≤ 6) × (length s.now ≡ words k) }
    ensures { told result ≡ check_says k s.now }
{
    Ok(check::check(k, s))
}
