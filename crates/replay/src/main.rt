// Replays the list of operations that oracle/compare recorded beside the Rust crate, and says how many answers or words differ.
// Each line of the input has eight numbers: levels, call, three arguments, refusal, value, and a checksum of the words afterwards.
#![tactic(auto)]

ghost use Rattle.std.specs.Prelude.{◌≤◌, length, IfOk};

use asogeren::Answer;
use bitmap::{BitAlloc1M, BitAlloc4K, BitAlloc16, BitAlloc64K, BitAlloc256, Refusal};
use std::io;
use std::io::Read;

// The words of a map of so many levels; a map of other levels has none, and its calls are made all the same and refused for that.
fn words_of(levels: usize) -> usize
    ensures { result ≤ BitAlloc1M.WORDS }
{
    match levels {
        1 => BitAlloc16::WORDS,
        2 => BitAlloc256::WORDS,
        3 => BitAlloc4K::WORDS,
        4 => BitAlloc64K::WORDS,
        5 => BitAlloc1M::WORDS,
        _ => 0,
    }
}

// The call with that code, as the list has it.
fn called(map: &mut [u16], code: usize, a: usize, b: usize, c: usize) -> Answer {
    match code {
        0 => asogeren::asogeren_alloc(map),
        1 => asogeren::asogeren_alloc_contiguous(map, a, b),
        2 => asogeren::asogeren_alloc_contiguous_at(map, a, b, c),
        3 => asogeren::asogeren_next(map, a),
        4 => asogeren::asogeren_dealloc(map, a),
        5 => asogeren::asogeren_dealloc_contiguous_old(map, a, b),
        6 => asogeren::asogeren_insert(map, a, b),
        7 => asogeren::asogeren_remove(map, a, b),
        8 => asogeren::asogeren_is_empty(map),
        9 => asogeren::asogeren_test(map, a),
        // a line with another code is none of the list's
        _ => Answer {
            refusal: bitmap::number(Refusal::BadLine) as u64,
            value: 0,
        },
    }
}

// 33 times what stood before, plus the word, for each word.
fn checksum(map: &[u16]) -> u64 {
    map.iter().fold(
        0,
        |sum: u64, w| sum.wrapping_mul(33).wrapping_add(u64::from(*w)),
    )
}

// Makes the line's call and compares what it answers, and the words, with what was recorded.
fn holds(line: &[u8], room: &mut [u16; BitAlloc1M::WORDS]) -> bool {
    let [levels, code, a, b, c, refusal, value, sum] = numbers::of_line::<8>(line);
    let map = &mut room[..words_of(levels)];
    let got = called(map, code, a, b, c);
    let recorded = Answer {
        refusal: refusal as u64,
        value: value as u64,
    };
    got == recorded && checksum(map) == sum as u64
}

// Judges each line, says which differ, and how many. It takes the runtime itself: with a type parameter, as under `impl Print`, the check
// can't state the invariant of a loop over an iterator that holds a closure.
fn replay(rt: &HostRuntime, input: &[u8], room: &mut [u16; BitAlloc1M::WORDS]) -> io::Result<()> {
    let mut operations = 0u64;
    let mut differences = 0u64;
    for line in input.split_inclusive(|b| *b == b'\n') {
        // counted here: it is the number of the line, and at the end that of all
        operations += 1;
        if !holds(line, room) {
            println!(rt; "line {operations} differs")?;
            differences += 1;
        }
    }
    println!(rt; "{operations} operations, {differences} differences")
}

// How many bytes of the list are read at most.
const READ: usize = 262144;

// Reads until the input ends or `to` is full; answers how many bytes came. Each read has all of the room that is left, and one that fails is
// the end: std's `copy` reads 8,192 bytes at a time, so that of a packet what is behind them is lost, and tries an interrupted read again.
fn read_full(rt: &HostRuntime, to: &mut [u8]) -> io::Result<usize>
    ensures { IfOk result (λ n. n ≤ length to.old) }
{
    let mut have = 0;
    // not a `for`: a turn takes in as much as one read gives
    while have < to.len() {
        let got = rt.stdin().read(&mut to[have..])?;
        if got == 0 {
            return Ok(have);
        }
        have += got;
    }
    Ok(have)
}

fn main(rt: HostRuntime) -> io::Result<()> {
    let mut input = [0u8; READ];
    let n = read_full(&rt, &mut input)?;
    let mut room = [0u16; BitAlloc1M::WORDS];
    replay(&rt, &input[..n], &mut room)
}
