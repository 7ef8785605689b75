// Plays a script as the line program does, and prints what that prints; behind it the words of the map as they are then, for ./draw.
// All the work is in the crate lines. Where there is no map, no word is printed.
#![tactic(auto)]

ghost use Rattle.std.specs.Prelude.{◌≡◌, ◌≤◌, length, IfOk};
ghost use Rattle.lines.specs.Session.{cut, went_on, words_on, output_on};

use bitmap::{BitAlloc64K, Refusal};
use std::io;
use std::io::Read;

// How many bytes are read at most.
const READ: usize = 65536;

// 6 bytes for each byte read.
const PRINTED: usize = 6 * READ;

fn main(rt: HostRuntime) -> io::Result<()> {
    let mut input = [0u8; READ];
    let n = read_full(&rt, &mut input)?;
    let mut words = [0u16; BitAlloc64K::WORDS];
    let mut output = [0u8; PRINTED];
    if let Ok((count, map)) = play(&input[..n], &mut words, &mut output) {
        rt.write_all(&output[..count])?;
        if map != 0 {
            show(&rt, &words[..map])?;
        }
    }
    Ok(())
}

// Reads until the input ends or `to` is full; answers how many bytes came. Each read has all of the room that is left, and one that fails is
// the end: std's `copy` reads 8,192 bytes at a time, so that of a packet what is behind them is lost, and tries an interrupted read again.
fn read_full(rt: &HostRuntime, to: &mut [u8]) -> io::Result<usize>
    ensures { IfOk result (λ n. n ≤ length to.old) }
{
    let mut have = 0;
    // not a `for`: a turn takes in as much as one read gives
    while have < to.len() {
        let got = rt.stdin().read(&mut to[have..])?;
        if got == 0 {
            return Ok(have);
        }
        have += got;
    }
    Ok(have)
}

// Plays a script's first bytes, as many as the line program reads, as one part and from no map. The contract is here since none can say
// what main reads and prints.
fn play(script: &[u8], words: &mut [u16], output: &mut [u8]) -> Result<(usize, usize), Refusal>
    ensures value { result ≡ went_on (cut script.now) words.old 0 output.old }
    ensures words_after { words.new ≡ words_on (cut script.now) words.old 0 output.old }
    ensures output_after { output.new ≡ output_on (cut script.now) words.old 0 output.old }
{
    let n = READ.min(script.len());
    lines::go_on(&script[..n], words, 0, output)
}

// How many words the map has, and each of them on a line of its own.
fn show(rt: &impl Print, map: &[u16]) -> io::Result<()> {
    println!(rt; "words {}", map.len())?;
    for w in map {
        println!(rt; "0x{w:04x}")?;
    }
    Ok(())
}
