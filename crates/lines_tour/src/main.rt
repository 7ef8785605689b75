// A tour of the library lines: small inputs, wrong first lines among them, stores and outputs that are too short by one, and parts.
// Each is named, and what is printed for it follows.
#![tactic(auto)]

use bitmap::BitAlloc64K;
use std::io;

fn main(rt: HostRuntime) -> io::Result<()> {
    no_lines(&rt)?;
    wrong_first_lines(&rt)?;
    last_lines(&rt)?;
    targets(&rt)?;
    parts(&rt)
}

// No input, and no line.
fn no_lines(rt: &impl Print) -> io::Result<()> {
    show(rt, "no input", b"")?;
    show(rt, "one line end", b"\n")?;
    show(rt, "two line ends", b"\n\n")
}

// Each is answered `no 10`, and nothing after it is read. A list of cases, each with its own text, here and below.
fn wrong_first_lines(rt: &impl Print) -> io::Result<()> {
    show(rt, "size 0", b"size 0\ntake\n")?;
    show(rt, "size 5", b"size 5\ntake\n")?;
    show(rt, "size 02", b"size 02\ntake\n")?;
    show(rt, "size 12", b"size 12\ntake\n")?;
    show(rt, "no size", b"size\ntake\n")?;
    show(rt, "an empty size", b"size \ntake\n")?;
    show(rt, "two spaces", b"size  2\ntake\n")?;
    show(rt, "a leading space", b" size 2\ntake\n")?;
    show(rt, "a trailing space", b"size 2 \ntake\n")?;
    show(rt, "a carriage return", b"size 2\r\ntake\r\n")?;
    show(rt, "a capital letter", b"Size 2\ntake\n")?;
    show(rt, "two sizes", b"size 2 2\ntake\n")?;
    show(rt, "a command", b"take\nsize 2\n")?;
    show(rt, "another word", b"sizes 2\ntake\n")
}

// A last line needs no line end, and a line end at the end adds no line.
fn last_lines(rt: &impl Print) -> io::Result<()> {
    show(rt, "a size with no line end", b"size 1")?;
    show(rt, "a size with a line end", b"size 2\n")?;
    show(rt, "a size and an empty line", b"size 3\n\n")?;
    show(rt, "a size and a last line", b"size 4\ntake")?;
    show(rt, "a second size", b"size 1\nsize 1\nempty\n")
}

// The eight bytes of `size 1`, a line end and an empty line take at most 48 bytes, and the words are those of the largest size.
fn targets(rt: &impl Print) -> io::Result<()> {
    let mut enough_words = [1u16; BitAlloc64K::WORDS];
    let mut enough_bytes = [b'.'; 48];
    sized(rt, "just enough", &mut enough_words, &mut enough_bytes)?;
    let mut few_words = [1u16; 4368];
    let mut its_bytes = [b'.'; 48];
    sized(rt, "a word too few", &mut few_words, &mut its_bytes)?;
    let mut its_words = [1u16; BitAlloc64K::WORDS];
    let mut few_bytes = [b'.'; 47];
    sized(rt, "a byte too few", &mut its_words, &mut few_bytes)
}

// Parts of an input, each on the map that the one before it left; a map with more words than there are; and a wrong first line.
fn parts(rt: &impl Print) -> io::Result<()> {
    let mut words = [0u16; BitAlloc64K::WORDS];
    let first = part(rt, "a first part", b"size 1\ninsert 0 4\n", &mut words, 0)?;
    let second = part(rt, "a second", b"take\ntake\n", &mut words, first)?;
    part(rt, "a last, with no line end", b"take", &mut words, second)?;
    part(rt, "no byte", b"", &mut words, second)?;
    part(
        rt,
        "a map with a word too many",
        b"take\n",
        &mut words,
        4370,
    )?;
    part(rt, "a wrong first line", b"take\nsize 1\n", &mut words, 0)?;
    Ok(())
}

// Prints the answers to a part, and answers how many words the map has then.
fn part(
    rt: &impl Print,
    name: &str,
    input: &[u8],
    words: &mut [u16],
    map: usize,
) -> io::Result<usize> {
    title(rt, name)?;
    let mut output = [0u8; 128];
    match lines::go_on(input, words, map, &mut output) {
        Ok((count, now)) => {
            rt.write_all(&output[..count])?;
            Ok(now)
        }
        Err(_) => {
            rt.write_all(b"refused\n")?;
            Ok(0)
        }
    }
}

// In three writes, so that an output that takes a write whole or not at all has each that fits.
fn title(rt: &impl Print, name: &str) -> io::Result<()> {
    rt.write_all(b"-- ")?;
    rt.write_all(name.as_bytes())?;
    rt.write_all(b"\n")
}

fn show(rt: &impl Print, name: &str, input: &[u8]) -> io::Result<()> {
    title(rt, name)?;
    let mut words = [0u16; BitAlloc64K::WORDS];
    let mut output = [0u8; 4096];
    match lines::lines(input, &mut words, &mut output) {
        Ok(n) => rt.write_all(&output[..n]),
        Err(_) => rt.write_all(b"refused\n"),
    }
}

// The whole output is shown, in which a dot is a byte that was not written.
fn sized(rt: &impl Print, name: &str, words: &mut [u16], output: &mut [u8]) -> io::Result<()> {
    title(rt, name)?;
    match lines::lines(b"size 1\n\n", words, output) {
        Ok(_) => rt.write_all(b"printed\n")?,
        Err(_) => rt.write_all(b"refused\n")?,
    }
    rt.write_all(output)?;
    rt.write_all(b"\n")
}
