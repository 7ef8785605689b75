// BitAlloc16: one word of 16 positions, of which a set bit is a free one.
ghost use Rattle.std.specs.Prelude.{◌≡◌, true, false, cond, eqb, ◌+◌, ◌-◌, ◌≤◌, ◌<◌};
ghost use Rattle.words.specs.Search.{first_from, none};
ghost use Rattle.words.specs.Bits.{bit, word_of, within, frees, change_word, lowest_bit};
ghost use Rattle.words.specs.Turn.{turned};

use crate::kind::Change;
use crate::turn::{Turn, Turned};

// Whether bit i is set.
pub fn test(w: u16, i: usize) -> bool
    requires { i < 16 }
    ensures { result ≡ bit w i }
{
    (w >> i) & 1 == 1
}

// The word with bit i as given. Over 32 bits it takes fewer instructions than over 16.
pub fn with_bit(w: u16, i: usize, on: bool) -> u16
    requires { i < 16 }
    ensures { result ≡ word_of (λ j. cond (eqb j i) on (bit w j)) }
{
    if on {
        (w as u32 | (1u32 << i)) as u16
    } else {
        (w as u32 & !(1u32 << i)) as u16
    }
}

// The bits from start up to end.
pub fn mask(start: usize, end: usize) -> u16
    requires { (start ≤ end) × (end ≤ 16) }
    ensures { result ≡ word_of (within start end) }
{
    ((1u32 << end) - (1u32 << start)) as u16
}

// Whether none of the bits from start up to end is set.
pub fn clear(w: u16, start: usize, end: usize) -> bool
    requires { (start ≤ end) × (end ≤ 16) }
    ensures { result ≡ none (bit w) start end }
{
    w & mask(start, end) == 0
}

// The word with the bits from start up to end set, or cleared.
pub fn change(c: Change, w: u16, start: usize, end: usize) -> u16
    requires { (start ≤ end) × (end ≤ 16) }
    ensures { result ≡ change_word c w start end }
{
    match c {
        Change::Insert => w | mask(start, end),
        Change::Remove => w & !mask(start, end),
    }
}

// The word with bit first as given, the bits after it up to last set, or cleared, and bit last as given.
pub fn change_borders(c: Change, w: u16, first: usize, last: usize, low: bool, high: bool) -> u16
    requires { (first < last) × (last < 16) }
    ensures { result ≡ word_of (λ i. cond (eqb i last) high (cond (within (first + 1) last i) (frees c) (cond (eqb i first) low (bit w i)))) }
{
    with_bit(
        change(c, with_bit(w, first, low), first + 1, last),
        last,
        high,
    )
}

// The first set bit from key on; 16 or more where there is none. A number and no Option: the must-fail edit next_of_a_large_key gives a
// wrong number where there is none.
pub fn next(w: u16, key: usize) -> usize
    ensures { result ≡ first_from (bit w) key (16 - key) }
{
    if 16 <= key {
        return key;
    }
    let from_key = w as usize & (65535 << key);
    lowest(from_key as u16)
}

// The lowest set bit; 16 where there is none. A number and no Option, since a stretch's end is counted on from it; lowest_in of look asks by
// an Option.
pub fn lowest(w: u16) -> usize
    ensures { result ≡ lowest_bit w }
{
    u16::trailing_zeros(w) as usize
}

// A single take: the word without its lowest set bit, and how it turned.
pub fn take(w: u16) -> Turned
    requires { 0 < w }
    ensures { result ≡ turned w (word_of (λ j. cond (eqb j (lowest_bit w)) false (bit w j))) }
{
    let word = w & (w - 1);
    let turn = if word == 0 {
        Turn::BecameEmpty
    } else {
        Turn::Stayed
    };
    Turned { word, turn }
}

// A single give-back: the word with bit i set, and how it turned. Not one function with `take`: the bit and the turn differ.
pub fn give(w: u16, i: usize) -> Turned
    requires { i < 16 }
    ensures { result ≡ turned w (word_of (λ j. cond (eqb j i) true (bit w j))) }
{
    let word = w | (1u16 << i);
    let turn = if w == 0 {
        Turn::BecameNotEmpty
    } else {
        Turn::Stayed
    };
    Turned { word, turn }
}
