// Reading a line: the number of its command and its arguments.
ghost use Rattle.std.specs.Prelude.{◌≡◌, option_map, unwrap_or};
ghost use Rattle.lines.specs.Split.{before, behind};
ghost use Rattle.lines.specs.Number.{none, number_of};
ghost use Rattle.lines.specs.Line.{code_of, other, line_of};
ghost use Rattle.words.specs.Below.{below};

// A line read. Its code is a number, as the table of cases goes by it (document 01): 1 to 4 for `size 1` to `size 4`, 5 to 15 for the
// eleven commands, 0 for a line of another form.
#[derive(Clone, Copy)]
pub struct Line {
    pub code: usize,
    pub a: usize,
    pub b: usize,
    pub c: usize,
}

impl Line {
    fn new(code: usize, a: usize, b: usize, c: usize) -> Self
        ensures { result ≡ record { code = code; a = a; b = b; c = c } }
    {
        Line { code, a, b, c }
    }
}

// What is before the first d, and what is behind it, where there is one.
pub fn cut(s: &[u8], d: u8) -> (&[u8], Option<&[u8]>)
    ensures first { result.0.now ≡ before d s.now }
    ensures rest { option_map (λ t. t.now) result.1 ≡ behind d s.now }
{
    match s.iter().position(|b| *b == d) {
        Some(i) => (&s[..i], Some(&s[i + 1..])),
        None => (s, None),
    }
}

// The value of 1 to 10 digits. By hand: std's `parse` takes a sign and any count of digits.
fn number(s: &[u8]) -> Option<usize>
    ensures { result ≡ below none (number_of s.now) }
{
    if s.is_empty() {
        return None;
    }
    if 10 < s.len() {
        return None;
    }
    let mut v = 0;
    for b in s {
        if !b.is_ascii_digit() {
            return None;
        }
        v = v * 10 + (*b - b'0') as usize;
    }
    Some(v)
}

// The code of a text that so many numbers follow, an arm for each form of a line. A match: where a constant of 15 rows was searched, a line
// with one number took some 50 instructions more. It is 0 where there is none: the table of cases refuses it by that number, as document 01
// says ("a range for everything refused").
#[tactic(auto, unfolding(crate::specs::Line::code_of, crate::specs::Line::size_of, crate::specs::Line::alone, crate::specs::Line::with_one, crate::specs::Line::with_two, crate::specs::Line::with_three))]
fn code_of(text: &[u8], numbers: usize) -> usize
    ensures { result ≡ code_of text.now numbers }
{
    match (numbers, text) {
        (0, b"size 1") => 1,
        (0, b"size 2") => 2,
        (0, b"size 3") => 3,
        (0, b"size 4") => 4,
        (0, b"take") => 5,
        (2, b"run") => 6,
        (3, b"runat") => 7,
        (1, b"free") => 8,
        (2, b"freerun") => 9,
        (2, b"freerunold") => 10,
        (2, b"insert") => 11,
        (2, b"remove") => 12,
        (1, b"next") => 13,
        (1, b"test") => 14,
        (0, b"empty") => 15,
        _ => 0,
    }
}

// The command that a line says: a whole text with no number, or a name and the numbers behind it.
fn command(s: &[u8]) -> Option<Line>
    ensures { unwrap_or result other ≡ line_of s.now }
{
    let code = code_of(s, 0);
    if code != 0 {
        return Some(Line::new(code, 0, 0, 0));
    }
    let (name, rest) = cut(s, b' ');
    let (a, rest) = cut(rest?, b' ');
    let a = number(a)?;
    let Some(rest) = rest else {
        return Some(Line::new(code_of(name, 1), a, 0, 0));
    };
    let (b, rest) = cut(rest, b' ');
    let b = number(b)?;
    let Some(rest) = rest else {
        return Some(Line::new(code_of(name, 2), a, b, 0));
    };
    let (c, rest) = cut(rest, b' ');
    let c = number(c)?;
    match rest {
        None => Some(Line::new(code_of(name, 3), a, b, c)),
        Some(_) => None,
    }
}

// Reads a line.
pub fn read_line(s: &[u8]) -> Line
    ensures { result ≡ line_of s.now }
{
    command(s).unwrap_or(Line::new(0, 0, 0, 0))
}
