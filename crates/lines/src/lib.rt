// The line program from bytes to bytes: commands, one a line, are done on a map in lent words, and the answers are written to a lent
// output. `lines` takes a whole input. `go_on` takes a part of one, so that a program can answer each line as it comes.
// specs/Session.antt says what is printed for every input.
#![tactic(auto)]

ghost use Rattle.std.specs.Prelude.{◌≡◌};
ghost use Rattle.lines.specs.Session.{says, lines_says, words_after, output_after, went_on, words_on, output_on};

mod read;
mod session;
mod table;
mod write;

use bitmap::{BitAlloc64K, Refusal};

// Only the first 65,536 bytes of the input are read.
const READ: usize = 65536;

// Prints the answers to the lines of the input, which take at most 6 bytes for each byte read; answers how many bytes were printed.
pub fn lines(input: &[u8], words: &mut [u16], output: &mut [u8]) -> Result<usize, Refusal>
    ensures result_value { says result ≡ lines_says input.now words.old output.old }
    ensures words_after { words.new ≡ words_after input.now words.old output.old }
    ensures output_after { output.new ≡ output_after input.now words.old output.old }
{
    let n = READ.min(input.len());
    go_on(&input[..n], words, 0, output).map(|(count, _)| count)
}

// Prints the answers to the lines of a part of an input. The first `map` words are the map's, none before the first line; the map grows in
// the lent words, so its count stands beside them. Answers how many bytes were printed and how many words the map has then. Where it has
// none, the first line was wrong, and it is over.
#[tactic(auto, unfolding(words::specs::Sizes::words, crate::specs::Session::went_on, crate::specs::Session::words_on, crate::specs::Session::output_on))]
pub fn go_on(
    input: &[u8],
    words: &mut [u16],
    map: usize,
    output: &mut [u8],
) -> Result<(usize, usize), Refusal>
    ensures value { result ≡ went_on input.now words.old map output.old }
    ensures words_after { words.new ≡ words_on input.now words.old map output.old }
    ensures output_after { output.new ≡ output_on input.now words.old map output.old }
{
    // The room for 6 bytes a byte, without a product that could be too large.
    if words.len() < BitAlloc64K::WORDS || words.len() < map || output.len() / 6 < input.len() {
        return Err(Refusal::TooShort);
    }
    let s = session::session(input, words, map, output);
    Ok((s.at, s.n))
}
