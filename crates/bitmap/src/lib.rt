// A bitmap allocator over a lent store of 16-bit words, after the Rust crate bitmap-allocator: the calls in the Rust's order.
// Every call is total: specs/Calls.antt says what it answers and leaves in the store, for every store and every number. Each finds the
// store's level by its word count, refuses the count or hands the map on. The calls are alike and stay apart: each has a promise of its own.
#![tactic(auto, using(crate::proofs::Stores::lent))]

ghost use Rattle.std.specs.Prelude.{◌≡◌, length, ok_or};
ghost use Rattle.words.specs.Below.{below};
ghost use Rattle.words.specs.Sizes.{level_of};
ghost use Rattle.bitmap.specs.Answer.{number, taken, changed, told};
ghost use Rattle.bitmap.specs.Calls.{answer, after, alloc_says, alloc_after, run_says, run_after, next_says, give_says, give_after, give_run_says, give_run_after, give_run_old_after, range_says, insert_after, remove_after, empty_says, test_says, check_says};

mod contiguous;
mod map;
mod refusal;
mod way;

pub use refusal::Refusal;
use way::Way;
use words::kind::Change;
use words::sizes;
pub use words::sizes::{
    BitAlloc1M, BitAlloc4K, BitAlloc16, BitAlloc16M, BitAlloc64K, BitAlloc256, BitAlloc256M,
};

// The level of a lent store.
fn level_of(store: &[u16]) -> Result<usize, Refusal>
    ensures { result ≡ ok_or (below 7 (level_of (length store.now))) Refusal.WordCount }
{
    sizes::level_of(store.len()).ok_or(Refusal::WordCount)
}

// Takes the lowest free position.
pub fn alloc(store: &mut [u16]) -> Result<usize, Refusal>
    ensures result_value { taken result ≡ answer alloc_says store.old }
    ensures store_after { store.new ≡ after alloc_after store.old }
{
    let k = level_of(store)?;
    map::alloc(k, store)
}

// Takes the lowest run of size positions that starts at a multiple of 2^align_log2, or the one at the given base.
pub fn alloc_contiguous(
    store: &mut [u16],
    base: Option<usize>,
    size: usize,
    align_log2: usize,
) -> Result<usize, Refusal>
    ensures result_value { taken result ≡ answer (run_says base size align_log2) store.old }
    ensures store_after { store.new ≡ after (run_after base size align_log2) store.old }
{
    let k = level_of(store)?;
    contiguous::alloc_contiguous(k, store, base, size, align_log2)
}

// The lowest free position that is key or more.
pub fn next(store: &[u16], key: usize) -> Result<usize, Refusal>
    ensures { taken result ≡ answer (next_says key) store.now }
{
    let k = level_of(store)?;
    map::next(k, store, key)
}

// Gives the position key back.
pub fn dealloc(store: &mut [u16], key: usize) -> Result<(), Refusal>
    ensures result_value { changed result ≡ answer (give_says key) store.old }
    ensures store_after { store.new ≡ after (give_after key) store.old }
{
    let k = level_of(store)?;
    map::dealloc(k, store, key)
}

// Gives size positions from base on back: all of them, or none where one was free already.
pub fn dealloc_contiguous(store: &mut [u16], base: usize, size: usize) -> Result<(), Refusal>
    ensures result_value { changed result ≡ answer (give_run_says base size) store.old }
    ensures store_after { store.new ≡ after (give_run_after base size) store.old }
{
    let k = level_of(store)?;
    contiguous::dealloc_contiguous(Way::Whole, k, store, base, size)
}

// The crate's way: where one was free already, the leaf words before its word are freed all the same.
pub fn dealloc_contiguous_old(store: &mut [u16], base: usize, size: usize) -> Result<(), Refusal>
    ensures result_value { changed result ≡ answer (give_run_says base size) store.old }
    ensures store_after { store.new ≡ after (give_run_old_after base size) store.old }
{
    let k = level_of(store)?;
    contiguous::dealloc_contiguous(Way::Old, k, store, base, size)
}

// Makes the positions from start up to end free.
pub fn insert(store: &mut [u16], start: usize, end: usize) -> Result<(), Refusal>
    ensures result_value { changed result ≡ answer (range_says start end) store.old }
    ensures store_after { store.new ≡ after (insert_after start end) store.old }
{
    let k = level_of(store)?;
    map::for_range(Change::Insert, k, store, start, end)
}

// Makes the positions from start up to end taken.
pub fn remove(store: &mut [u16], start: usize, end: usize) -> Result<(), Refusal>
    ensures result_value { changed result ≡ answer (range_says start end) store.old }
    ensures store_after { store.new ≡ after (remove_after start end) store.old }
{
    let k = level_of(store)?;
    map::for_range(Change::Remove, k, store, start, end)
}

// Whether no position is free: the first word is 0.
pub fn is_empty(store: &[u16]) -> Result<bool, Refusal>
    ensures { told result ≡ answer empty_says store.now }
{
    let k = level_of(store)?;
    map::is_empty(k, store)
}

// Whether the leaf bit of the position key is set.
pub fn test(store: &[u16], key: usize) -> Result<bool, Refusal>
    ensures { told result ≡ answer (test_says key) store.now }
{
    let k = level_of(store)?;
    map::test(k, store, key)
}

// Added: whether the map is true.
pub fn check(store: &[u16]) -> Result<bool, Refusal>
    ensures { told result ≡ answer check_says store.now }
{
    let k = level_of(store)?;
    map::check(k, store)
}

// Added: the number of a refusal.
pub fn number(r: Refusal) -> usize
    ensures { result ≡ number r }
{
    r as usize
}
