// The table of cases: what each command is answered, on the words of a map.
ghost use Rattle.std.specs.Prelude.{◌≡◌, cond, get_or};
ghost use Rattle.lines.specs.declared.table.Reply.TheVariants.{Yes, Not};
ghost use Rattle.lines.specs.Reply.{No, replied, replies, afters, allowed};

use crate::read::Line;
use bitmap::{BitAlloc4K, BitAlloc16, BitAlloc64K, BitAlloc256, Refusal};

// What a line is answered: a map of so many positions and words, a position, done, yes or not.
#[derive(Clone, Copy)]
pub enum Reply {
    Map(usize, usize),
    At(usize),
    Done,
    Yes,
    Not,
}

// The reply of a test.
impl From<bool> for Reply {
    ghost from_gives = { λ b r. r ≡ cond b Yes Not };

    fn from(b: bool) -> Self {
        if b { Reply::Yes } else { Reply::Not }
    }
}

// The number in the table, by code as document 01 has it, where the map has n words: a size opens a map where there is none, any other
// command needs one.
#[tactic(auto, unfolding(crate::specs::Reply::allowed))]
pub fn allowed(n: usize, code: usize) -> usize
    ensures { result ≡ allowed n code }
{
    if n == 0 {
        if code <= 4 { code } else { 0 }
    } else {
        if code <= 4 { 0 } else { code }
    }
}

// The table, one match on one number as document 01 has it: 1 to 4 are the sizes, 5 to 15 the commands, and everything else is refused.
// Each refusal leaves by `?`: where each arm made a `Result` of its own, which was looked at again to be printed, a line took some 20
// instructions more.
#[tactic(auto, unfolding(crate::specs::Reply::replies, crate::specs::Reply::afters, words::specs::Sizes::cap, words::specs::Sizes::words))]
pub fn answer(code: usize, l: Line, map: &mut [u16]) -> Result<Reply, Refusal>
    ensures value { replied result ≡ get_or (replies l.a l.b l.c map.old) code (No 10) }
    ensures map_after { map.new ≡ get_or (afters l.a l.b l.c map.old) code map.old }
{
    Ok(match code {
        1 => Reply::Map(BitAlloc16::CAP, BitAlloc16::WORDS),
        2 => Reply::Map(BitAlloc256::CAP, BitAlloc256::WORDS),
        3 => Reply::Map(BitAlloc4K::CAP, BitAlloc4K::WORDS),
        4 => Reply::Map(BitAlloc64K::CAP, BitAlloc64K::WORDS),
        5 => Reply::At(bitmap::alloc(map)?),
        6 => Reply::At(bitmap::alloc_contiguous(map, None, l.a, l.b)?),
        7 => Reply::At(bitmap::alloc_contiguous(map, Some(l.a), l.b, l.c)?),
        8 => bitmap::dealloc(map, l.a).map(|()| Reply::Done)?,
        9 => bitmap::dealloc_contiguous(map, l.a, l.b).map(|()| Reply::Done)?,
        10 => bitmap::dealloc_contiguous_old(map, l.a, l.b).map(|()| Reply::Done)?,
        11 => bitmap::insert(map, l.a, l.b).map(|()| Reply::Done)?,
        12 => bitmap::remove(map, l.a, l.b).map(|()| Reply::Done)?,
        13 => Reply::At(bitmap::next(map, l.a)?),
        14 => Reply::from(bitmap::test(map, l.a)?),
        15 => Reply::from(bitmap::is_empty(map)?),
        0 | 16.. => return Err(Refusal::BadLine),
    })
}
