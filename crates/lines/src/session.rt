// An input, or a part of one, line by line.
ghost use Rattle.std.specs.Prelude.{◌≡◌, ◌+◌, ◌*◌, ◌≤◌, length, take};
ghost use Rattle.lines.specs.Line.{line_of};
ghost use Rattle.lines.specs.Reply.{replied, text, reply_to, opened};
ghost use Rattle.lines.specs.Session.{most_words, renewed, Stepped, Ended};

use crate::table::Reply;
use crate::{read, table, write};
use bitmap::Refusal;

// How many words the map has, 0 before it is opened as `go_on` promises it, and how many bytes are printed.
#[derive(Clone, Copy)]
pub struct State {
    pub n: usize,
    pub at: usize,
}

// Opens a map, all taken, where the reply says so; answers how many words the map has.
fn open(reply: Result<Reply, Refusal>, n: usize, words: &mut [u16]) -> usize
    requires { (n ≤ length words.old) × (length (opened (replied reply) (take n words.old)) ≤ length words.old) }
    ensures value { result ≡ length (opened (replied reply) (take n words.old)) }
    ensures words_after { words.new ≡ renewed (opened (replied reply) (take n words.old)) words.old }
{
    match reply {
        Ok(Reply::Map(_, w)) => {
            words[..w].fill(0);
            w
        }
        _ => n,
    }
}

// Reads one line, answers it on the map's words, and writes the answer behind what is printed.
fn step(line: &[u8], from: State, words: &mut [u16], out: &mut [u8]) -> State
    requires { (from.n ≤ length words.old) × (most_words ≤ length words.old) × (from.at + length (text (reply_to (take from.n words.old) (line_of line.now))) ≤ length out.old) }
    ensures { Stepped line.now words.old out.old from.n from.at words.new out.new result.n result.at }
{
    let l = read::read_line(line);
    let code = table::allowed(from.n, l.code);
    let reply = table::answer(code, l, &mut words[..from.n]);
    let count = write::put_reply(&mut out[from.at..], reply);
    let n = open(reply, from.n, words);
    State {
        n,
        at: from.at + count,
    }
}

// Goes through the lines of the input, where the map has its first `map` words, none before the first line; answers how many it has then
// and how many bytes were printed.
pub fn session(input: &[u8], words: &mut [u16], map: usize, out: &mut [u8]) -> State
    requires { (map ≤ length words.old) × (most_words ≤ length words.old) × (6 * length input.now ≤ length out.old) }
    ensures { Ended input.now words.old map out.old words.new out.new result.n result.at }
{
    let mut s = State { n: map, at: 0 };
    let mut rest = input;
    // not a `for`: what is promised of the lines goes by `before` and `behind`, as the fields of a line do
    while !rest.is_empty() {
        let (line, behind) = read::cut(rest, b'\n');
        s = step(line, s, words, out);
        if s.n == 0 {
            return s;
        }
        rest = behind.unwrap_or(b"");
    }
    s
}
