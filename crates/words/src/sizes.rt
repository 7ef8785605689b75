// The seven sizes, each with its positions and its words, and the steps between a map and its children.
// A map's level k counts the levels below its own word: BitAlloc16 has k = 0.
ghost use Rattle.std.specs.Prelude.{◌≡◌, ◌*◌, ◌/◌, ◌%◌, ◌≤◌};
ghost use Rattle.words.specs.Below.{below};
ghost use Rattle.words.specs.Sizes.{words, cap, level_of};

// Seven types, and not one with the level as a const parameter: Rattle takes no constant of a generic impl or of a trait as the length of an
// array, as in the programs' `[0u16; BitAlloc256::WORDS]`, nor in a pattern.

#[derive(Clone, Copy)]
pub struct BitAlloc16;

impl BitAlloc16 {
    pub const CAP: usize = 16;

    pub const WORDS: usize = 1;
}

#[derive(Clone, Copy)]
pub struct BitAlloc256;

impl BitAlloc256 {
    pub const CAP: usize = 256;

    pub const WORDS: usize = 17;
}

#[derive(Clone, Copy)]
pub struct BitAlloc4K;

impl BitAlloc4K {
    pub const CAP: usize = 4096;

    pub const WORDS: usize = 273;
}

#[derive(Clone, Copy)]
pub struct BitAlloc64K;

impl BitAlloc64K {
    pub const CAP: usize = 65536;

    pub const WORDS: usize = 4369;
}

#[derive(Clone, Copy)]
pub struct BitAlloc1M;

impl BitAlloc1M {
    pub const CAP: usize = 1048576;

    pub const WORDS: usize = 69905;
}

#[derive(Clone, Copy)]
pub struct BitAlloc16M;

impl BitAlloc16M {
    pub const CAP: usize = 16777216;

    pub const WORDS: usize = 1118481;
}

#[derive(Clone, Copy)]
pub struct BitAlloc256M;

impl BitAlloc256M {
    pub const CAP: usize = 268435456;

    pub const WORDS: usize = 17895697;
}

// The level of a store of n words, where n is one of the seven counts. The sizes in use are asked for first.
pub fn level_of(n: usize) -> Option<usize>
    ensures { result ≡ below 7 (level_of n) }
{
    if n == BitAlloc4K::WORDS {
        Some(2)
    } else if n < BitAlloc4K::WORDS {
        match n {
            BitAlloc16::WORDS => Some(0),
            BitAlloc256::WORDS => Some(1),
            _ => None,
        }
    } else if n == BitAlloc64K::WORDS {
        Some(3)
    } else if n < BitAlloc64K::WORDS {
        None
    } else {
        match n {
            BitAlloc1M::WORDS => Some(4),
            BitAlloc16M::WORDS => Some(5),
            BitAlloc256M::WORDS => Some(6),
            _ => None,
        }
    }
}

// How many positions a map of level k has: by the constants, which it proves to be what the definition says.
#[tactic(auto, unfolding(crate::specs::Sizes::cap))]
pub fn cap_of(k: usize) -> usize
    requires { k ≤ 6 }
    ensures { (result ≡ cap k) × (result ≤ 268435456) }
{
    match k {
        0 => BitAlloc16::CAP,
        1 => BitAlloc256::CAP,
        2 => BitAlloc4K::CAP,
        3 => BitAlloc64K::CAP,
        4 => BitAlloc1M::CAP,
        5 => BitAlloc16M::CAP,
        _ => BitAlloc256M::CAP,
    }
}

// In hexadecimal a map's words are a 1 for each of its levels: these are the seven of the largest.
const ONES: usize = 0x1111111;

// How many words a map of level k has.
pub fn words_of(k: usize) -> usize
    requires { k ≤ 6 }
    ensures { result ≡ words k }
{
    ONES >> (24 - 4 * k)
}

// How many words each child has in a map of n words.
pub fn child_words(n: usize) -> usize
    ensures { result ≡ n / 16 }
{
    n >> 4
}

// Which child of level j the position p is in.
pub fn child_of(j: usize, p: usize) -> usize
    requires { j ≤ 5 }
    ensures { result ≡ p / cap j }
{
    p >> (4 * j + 4)
}

// How far into that child it is.
pub fn rest_of(j: usize, p: usize) -> usize
    requires { j ≤ 5 }
    ensures { result ≡ p % cap j }
{
    p & ((1 << (4 * j + 4)) - 1)
}

// Where child i of level j starts.
pub fn start_of(j: usize, i: usize) -> usize
    requires { (j ≤ 5) × (i ≤ 16) }
    ensures { (result ≡ i * cap j) × (result ≤ 268435456) }
{
    i << (4 * j + 4)
}
