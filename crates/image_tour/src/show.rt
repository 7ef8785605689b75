// What the tour writes: titles, numbers, answers and whether two things are the same. Each text and each number is a write of its
// own, so that an output that takes a write whole or not at all has each that fits.
use bitmap::Refusal;
use std::io;

// A line that opens a part of the tour.
pub fn title(rt: &impl Print, t: &str) -> io::Result<()> {
    rt.write_all(b"-- ")?;
    rt.write_all(t.as_bytes())?;
    rt.write_all(b"\n")
}

// A text, and a number with a space before it.
pub fn number(rt: &impl Print, what: &[u8], n: usize) -> io::Result<()> {
    rt.write_all(what)?;
    print!(rt; " {n}")
}

// How many there are of what a call counts, or its refusal's number.
pub fn answer(rt: &impl Print, what: &[u8], a: Result<usize, Refusal>) -> io::Result<()> {
    match a {
        Ok(n) => number(rt, what, n),
        Err(r) => number(rt, b" no", bitmap::number(r)),
    }
}

// The end of a line: a text, and an answer.
pub fn answer_line(
    rt: &impl Print,
    t: &[u8],
    what: &[u8],
    a: Result<usize, Refusal>,
) -> io::Result<()> {
    rt.write_all(t)?;
    answer(rt, what, a)?;
    rt.write_all(b"\n")
}

// Whether two things are the same.
pub fn sameness(rt: &impl Print, same: bool) -> io::Result<()> {
    if same {
        rt.write_all(b" same")
    } else {
        rt.write_all(b" not the same")
    }
}
