// The call that a line of the script says, with its answer and, after a change, the words of the store.
use crate::show;
use bitmap::Refusal;
use std::io;

// What a call answers: a take and another change leave words to show, a look-up and a test do not.
#[derive(Clone, Copy)]
pub enum Answer {
    Take(Result<usize, Refusal>),
    Look(Result<usize, Refusal>),
    Change(Result<(), Refusal>),
    Test(Result<bool, Refusal>),
}

// Makes the call and writes what it answers.
pub fn call(rt: &impl Print, line: &[u8], s: &mut [u16]) -> io::Result<()> {
    let answer = made(line, s);
    show::answer(rt, answer)?;
    match answer {
        Answer::Take(_) | Answer::Change(_) => show::words(rt, s),
        Answer::Look(_) | Answer::Test(_) => rt.write_all(b"\n"),
    }
}

// The calls in the Rust's order; of two names the longer first. A list of cases, each with its own call.
fn made(line: &[u8], s: &mut [u16]) -> Answer {
    if let Some(rest) = line.strip_prefix(b"alloc_contiguous any ") {
        let [size, align_log2] = numbers::of_line::<2>(rest);
        Answer::Take(bitmap::alloc_contiguous(s, None, size, align_log2))
    } else if let Some(rest) = line.strip_prefix(b"alloc_contiguous at ") {
        let [base, size, align_log2] = numbers::of_line::<3>(rest);
        Answer::Take(bitmap::alloc_contiguous(s, Some(base), size, align_log2))
    } else if line.starts_with(b"alloc") {
        Answer::Take(bitmap::alloc(s))
    } else if let Some(rest) = line.strip_prefix(b"next ") {
        let [key] = numbers::of_line::<1>(rest);
        Answer::Look(bitmap::next(s, key))
    } else if let Some(rest) = line.strip_prefix(b"dealloc ") {
        let [key] = numbers::of_line::<1>(rest);
        Answer::Change(bitmap::dealloc(s, key))
    } else if let Some(rest) = line.strip_prefix(b"dealloc_contiguous ") {
        let [base, size] = numbers::of_line::<2>(rest);
        Answer::Change(bitmap::dealloc_contiguous(s, base, size))
    } else if let Some(rest) = line.strip_prefix(b"dealloc_contiguous_old ") {
        let [base, size] = numbers::of_line::<2>(rest);
        Answer::Change(bitmap::dealloc_contiguous_old(s, base, size))
    } else if let Some(rest) = line.strip_prefix(b"insert ") {
        let [start, end] = numbers::of_line::<2>(rest);
        Answer::Change(bitmap::insert(s, start, end))
    } else if let Some(rest) = line.strip_prefix(b"remove ") {
        let [start, end] = numbers::of_line::<2>(rest);
        Answer::Change(bitmap::remove(s, start, end))
    } else if line.starts_with(b"is_empty") {
        Answer::Test(bitmap::is_empty(s))
    } else if let Some(rest) = line.strip_prefix(b"test ") {
        let [key] = numbers::of_line::<1>(rest);
        Answer::Test(bitmap::test(s, key))
    } else {
        Answer::Test(bitmap::check(s))
    }
}
