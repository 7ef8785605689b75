// The C library: each function of crates/asogeren, exported to C under the same name and with the same clauses, which that function proves.
// include/asogeren.h declares them for C. Every one is total: it takes any words, bytes and numbers.
#![tactic(auto)]

ghost use Rattle.std.specs.Prelude.{◌≡◌, Some, None};
ghost use Rattle.bitmap.specs.Calls.{answer, after, alloc_says, alloc_after, run_says, run_after, next_says, give_says, give_after, give_run_says, give_run_after, give_run_old_after, range_says, insert_after, remove_after, empty_says, test_says, check_says};
ghost use Rattle.image.specs.Calls.{write_says, write_after, read_says, read_after};
ghost use Rattle.asogeren.specs.Crossed.{crossed};

use asogeren::Answer;

// Takes the lowest free position.
#[unsafe(no_mangle)]
pub extern "C" fn asogeren_alloc(store: &mut [u16]) -> Answer
    ensures value { result ≡ crossed (answer alloc_says store.old) }
    ensures store_after { store.new ≡ after alloc_after store.old }
{
    asogeren::asogeren_alloc(store)
}

// Takes the lowest run of size positions that starts at a multiple of 2^align_log2.
#[unsafe(no_mangle)]
pub extern "C" fn asogeren_alloc_contiguous(
    store: &mut [u16],
    size: usize,
    align_log2: usize,
) -> Answer
    ensures value { result ≡ crossed (answer (run_says None size align_log2) store.old) }
    ensures store_after { store.new ≡ after (run_after None size align_log2) store.old }
{
    asogeren::asogeren_alloc_contiguous(store, size, align_log2)
}

// Takes the run of size positions at base, a multiple of 2^align_log2.
#[unsafe(no_mangle)]
pub extern "C" fn asogeren_alloc_contiguous_at(
    store: &mut [u16],
    base: usize,
    size: usize,
    align_log2: usize,
) -> Answer
    ensures value { result ≡ crossed (answer (run_says (Some base) size align_log2) store.old) }
    ensures store_after { store.new ≡ after (run_after (Some base) size align_log2) store.old }
{
    asogeren::asogeren_alloc_contiguous_at(store, base, size, align_log2)
}

// The lowest free position that is key or more.
#[unsafe(no_mangle)]
pub extern "C" fn asogeren_next(store: &[u16], key: usize) -> Answer
    ensures { result ≡ crossed (answer (next_says key) store.now) }
{
    asogeren::asogeren_next(store, key)
}

// Gives the position key back.
#[unsafe(no_mangle)]
pub extern "C" fn asogeren_dealloc(store: &mut [u16], key: usize) -> Answer
    ensures value { result ≡ crossed (answer (give_says key) store.old) }
    ensures store_after { store.new ≡ after (give_after key) store.old }
{
    asogeren::asogeren_dealloc(store, key)
}

// Gives size positions from base on back: all of them, or none where one was free already.
#[unsafe(no_mangle)]
pub extern "C" fn asogeren_dealloc_contiguous(store: &mut [u16], base: usize, size: usize) -> Answer
    ensures value { result ≡ crossed (answer (give_run_says base size) store.old) }
    ensures store_after { store.new ≡ after (give_run_after base size) store.old }
{
    asogeren::asogeren_dealloc_contiguous(store, base, size)
}

// The crate's way: where one was free already, the leaf words before its word are freed all the same.
#[unsafe(no_mangle)]
pub extern "C" fn asogeren_dealloc_contiguous_old(
    store: &mut [u16],
    base: usize,
    size: usize,
) -> Answer
    ensures value { result ≡ crossed (answer (give_run_says base size) store.old) }
    ensures store_after { store.new ≡ after (give_run_old_after base size) store.old }
{
    asogeren::asogeren_dealloc_contiguous_old(store, base, size)
}

// Makes the positions from start up to end free.
#[unsafe(no_mangle)]
pub extern "C" fn asogeren_insert(store: &mut [u16], start: usize, end: usize) -> Answer
    ensures value { result ≡ crossed (answer (range_says start end) store.old) }
    ensures store_after { store.new ≡ after (insert_after start end) store.old }
{
    asogeren::asogeren_insert(store, start, end)
}

// Makes the positions from start up to end taken.
#[unsafe(no_mangle)]
pub extern "C" fn asogeren_remove(store: &mut [u16], start: usize, end: usize) -> Answer
    ensures value { result ≡ crossed (answer (range_says start end) store.old) }
    ensures store_after { store.new ≡ after (remove_after start end) store.old }
{
    asogeren::asogeren_remove(store, start, end)
}

// Whether no position is free: the first word is 0.
#[unsafe(no_mangle)]
pub extern "C" fn asogeren_is_empty(store: &[u16]) -> Answer
    ensures { result ≡ crossed (answer empty_says store.now) }
{
    asogeren::asogeren_is_empty(store)
}

// Whether the leaf bit of the position key is set.
#[unsafe(no_mangle)]
pub extern "C" fn asogeren_test(store: &[u16], key: usize) -> Answer
    ensures { result ≡ crossed (answer (test_says key) store.now) }
{
    asogeren::asogeren_test(store, key)
}

// Whether the map is true.
#[unsafe(no_mangle)]
pub extern "C" fn asogeren_check(store: &[u16]) -> Answer
    ensures { result ≡ crossed (answer check_says store.now) }
{
    asogeren::asogeren_check(store)
}

// Writes the image of a true map to the first bytes of the target.
#[unsafe(no_mangle)]
pub extern "C" fn asogeren_image_write(store: &[u16], target: &mut [u8]) -> Answer
    ensures value { result ≡ crossed (write_says store.now target.old) }
    ensures target_after { target.new ≡ write_after store.now target.old }
{
    asogeren::asogeren_image_write(store, target)
}

// Reads the image of a true map into the first words of the target.
#[unsafe(no_mangle)]
pub extern "C" fn asogeren_image_read(bytes: &[u8], target: &mut [u16]) -> Answer
    ensures value { result ≡ crossed (read_says bytes.now target.old) }
    ensures target_after { target.new ≡ read_after bytes.now target.old }
{
    asogeren::asogeren_image_read(bytes, target)
}
