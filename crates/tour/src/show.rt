// What the tour writes of an answer and of a store.
use crate::calls::Answer;
use std::io;

// How many words that are not 0 a line shows at most.
const SHOWN: usize = 8;

// A text, and a number behind a space: two writes, so that an output that takes no more ends at the same piece as ever.
pub fn number(rt: &impl Print, text: &[u8], n: usize) -> io::Result<()> {
    rt.write_all(text)?;
    print!(rt; " {n}")
}

// What a call answers.
pub fn answer(rt: &impl Print, a: Answer) -> io::Result<()> {
    match a {
        Answer::Take(Ok(p)) | Answer::Look(Ok(p)) => number(rt, b": at", p),
        Answer::Change(Ok(())) => rt.write_all(b": ok"),
        Answer::Test(Ok(true)) => rt.write_all(b": yes"),
        Answer::Test(Ok(false)) => rt.write_all(b": not"),
        Answer::Take(Err(r))
        | Answer::Look(Err(r))
        | Answer::Change(Err(r))
        | Answer::Test(Err(r)) => number(rt, b": no", bitmap::number(r)),
    }
}

// The words of a store with their places, as 3:00ff, up to the end of the line. The store is gone over once: the first are shown
// while all are counted.
pub fn words(rt: &impl Print, s: &[u16]) -> io::Result<()> {
    rt.write_all(b" |")?;
    let mut some = 0;
    for (i, w) in s.iter().enumerate() {
        if *w != 0 {
            if some < SHOWN {
                print!(rt; " {i}:{w:04x}")?;
            }
            some += 1;
        }
    }
    match some {
        0 => rt.write_all(b" all 0")?,
        n if SHOWN < n => number(rt, b" .. in all", n)?,
        _ => {}
    }
    rt.write_all(b"\n")
}
