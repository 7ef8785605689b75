// A tour of the bitmap: its seven sizes, and then the calls of a script, its standard input: the two examples of the Rust's doc
// comments, every public call on maps of one to four levels with each refusal, and maps that are not true. A line of the output is a
// call with its answer and, after a change, the words that are not 0.
#![tactic(auto)]

ghost use Rattle.std.specs.Prelude.{◌≤◌, length, IfOk};

use bitmap::{
    BitAlloc1M, BitAlloc4K, BitAlloc16, BitAlloc16M, BitAlloc64K, BitAlloc256, BitAlloc256M,
};
use std::io;
use std::io::Read;

mod calls;
mod show;

// How many bytes of the script are read at most.
const READ: usize = 65536;

fn main(rt: HostRuntime) -> io::Result<()> {
    // a read that fails is told before a write that did
    let listed = sizes(&rt);
    let mut input = [0u8; READ];
    let n = read_full(&rt, &mut input)?;
    listed?;
    // one word more than a map of four levels has
    let mut room = [0u16; BitAlloc64K::WORDS + 1];
    play(&rt, &input[..n], &mut room)
}

// Reads until the input ends or `to` is full; answers how many bytes came. Each read has all of the room that is left, and one that fails is
// the end: std's `copy` reads 8,192 bytes at a time, so that of a packet what is behind them is lost, and tries an interrupted read again.
fn read_full(rt: &HostRuntime, to: &mut [u8]) -> io::Result<usize>
    ensures { IfOk result (λ n. n ≤ length to.old) }
{
    let mut have = 0;
    // not a `for`: a turn takes in as much as one read gives
    while have < to.len() {
        let got = rt.stdin().read(&mut to[have..])?;
        if got == 0 {
            return Ok(have);
        }
        have += got;
    }
    Ok(have)
}

fn sizes(rt: &impl Print) -> io::Result<()> {
    rt.write_all(b"-- the sizes\n")?;
    for (name, cap, words) in [
        ("BitAlloc16", BitAlloc16::CAP, BitAlloc16::WORDS),
        ("BitAlloc256", BitAlloc256::CAP, BitAlloc256::WORDS),
        ("BitAlloc4K", BitAlloc4K::CAP, BitAlloc4K::WORDS),
        ("BitAlloc64K", BitAlloc64K::CAP, BitAlloc64K::WORDS),
        ("BitAlloc1M", BitAlloc1M::CAP, BitAlloc1M::WORDS),
        ("BitAlloc16M", BitAlloc16M::CAP, BitAlloc16M::WORDS),
        ("BitAlloc256M", BitAlloc256M::CAP, BitAlloc256M::WORDS),
    ] {
        rt.write_all(name.as_bytes())?;
        show::number(rt, b" CAP", cap)?;
        show::number(rt, b" WORDS", words)?;
        rt.write_all(b"\n")?;
    }
    Ok(())
}

// The lines of the script, one after the other.
fn play(rt: &impl Print, script: &[u8], room: &mut [u16]) -> io::Result<()> {
    let mut lent = 0;
    for l in script.split_inclusive(|b| *b == b'\n') {
        lent = line(rt, l.strip_suffix(b"\n").unwrap_or(l), room, lent)?;
    }
    Ok(())
}

// A line of the script, where the first words of the room are lent; answers how many are lent from now on.
//   -- TEXT      is printed
//   store N      N words are lent, all 0
//   word I W     word I becomes W
//   lent         prints the words that are lent
//   anything else is a call, with its arguments
// The count stands beside the room: a script may lend more than there is, and then no call is made.
fn line(rt: &impl Print, l: &[u8], room: &mut [u16], lent: usize) -> io::Result<usize> {
    if let Some(rest) = l.strip_prefix(b"store ") {
        room.fill(0);
        let [n] = numbers::of_line::<1>(rest);
        return Ok(n);
    }
    if let Some(rest) = l.strip_prefix(b"word ") {
        let [i, w] = numbers::of_line::<2>(rest);
        if let Some(word) = room.get_mut(i) {
            *word = (w % 65536) as u16;
        }
        return Ok(lent);
    }
    rt.write_all(l)?;
    if let Some(store) = room.get_mut(..lent) {
        told(rt, l, store)?;
    }
    Ok(lent)
}

// What follows a line that is printed.
fn told(rt: &impl Print, l: &[u8], store: &mut [u16]) -> io::Result<()> {
    if l.starts_with(b"-- ") {
        rt.write_all(b"\n")
    } else if l.starts_with(b"lent") {
        print!(rt; " {}", store.len())?;
        show::words(rt, store)
    } else {
        calls::call(rt, l, store)
    }
}
