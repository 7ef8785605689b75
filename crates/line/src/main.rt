// The line program, live: reads commands from standard input, one a line, and prints the answers to the lines that have come, at once.
// All that is done to them is in the crate lines. What goes wrong is said on standard error, in one line, and ends the program.
#![tactic(auto)]

ghost use Rattle.std.specs.Prelude.{◌<◌, ◌≤◌, length, IfSome};

use bitmap::BitAlloc64K;
use std::io::{IsTerminal, Read};

// How many bytes are read at most, and printed for them at most.
const READ: usize = 65536;

const PRINTED: usize = 6 * READ;

// What standard error doesn't take is lost: there is nowhere else to say it.
fn say(rt: &HostRuntime, text: &[u8]) {
    let _ = rt.stderr().write_all(text);
}

// The words that a map can have, how many of them it has, 0 before the first line as `go_on` promises it, and the room for the answers.
#[derive(Drop)]
struct Session<'a> {
    words: &'a mut [u16],
    map: usize,
    output: &'a mut [u8],
}

impl Session<'_> {
    // Does a part of the input and prints its answers; answers whether it goes on.
    fn play(&mut self, rt: &HostRuntime, part: &[u8]) -> bool {
        let Ok((count, map)) = lines::go_on(part, self.words, self.map, self.output) else {
            return false;
        };
        self.map = map;
        if rt.write_all(&self.output[..count]).is_err() {
            say(rt, b"line: the answers can't be written\n");
            return false;
        }
        map != 0
    }
}

// Says where the input went on behind the bytes that are read.
fn say_if_cut(rt: &HostRuntime) {
    let mut more = [0u8; 1];
    if let Ok(1) = rt.stdin().read(&mut more) {
        say(
            rt,
            b"line: only the first 65,536 bytes of the input were read; a line cut there was done as it stands\n",
        );
    }
}

// Reads some bytes and answers how many came; nothing where the input has ended or can't be read.
fn more(rt: &HostRuntime, room: &mut [u8], terminal: bool) -> Option<usize>
    ensures { IfSome result (λ n. (0 < n) × (n ≤ length room.old)) }
{
    if terminal {
        say(rt, b"> ");
    }
    match rt.stdin().read(room) {
        Ok(0) => {
            // Ctrl-D stands behind the prompt: what comes next has a line of its own.
            if terminal {
                say(rt, b"\n");
            }
            None
        }
        Ok(got) => Some(got),
        Err(_) => {
            say(rt, b"line: the input can't be read\n");
            None
        }
    }
}

// Reads until the input ends or is full. Whole lines are done as soon as they have come, and each new byte is looked at once for a line
// end; a last line without one is done at the end.
fn run(rt: &HostRuntime, input: &mut [u8], session: &mut Session<'_>) {
    let terminal = rt.stdin().is_terminal();
    let mut have = 0;
    let mut done = 0;
    // not a `for`: a turn takes in as much as one read gives
    while have < input.len() {
        let Some(got) = more(rt, &mut input[have..], terminal) else {
            session.play(rt, &input[done..have]);
            return;
        };
        let last = input[have..have + got].iter().rposition(|b| *b == b'\n');
        if let Some(last) = last {
            let end = have + last + 1;
            if !session.play(rt, &input[done..end]) {
                return;
            }
            done = end;
        }
        have += got;
    }
    session.play(rt, &input[done..have]);
    say_if_cut(rt);
}

fn main(rt: HostRuntime) {
    let mut input = [0u8; READ];
    let mut words = [0u16; BitAlloc64K::WORDS];
    let mut output = [0u8; PRINTED];
    let mut session = Session {
        words: &mut words,
        map: 0,
        output: &mut output,
    };
    run(&rt, &mut input, &mut session);
}
