// Where the sections of an image stand, by their depth. A map's level k counts the levels below its own word.
ghost use Rattle.std.specs.Prelude.{◌≡◌, ◌≤◌, ◌<◌};
ghost use Rattle.words.specs.Below.{below};
ghost use Rattle.words.specs.Place.{count};
ghost use Rattle.image.specs.Image.{start, image_level};

use words::sizes;

// How many bytes stand before the first section.
const OPENING: usize = 0;

// How many words have the depth d.
pub fn count_of(d: usize) -> usize
    requires { d ≤ 6 }
    ensures { (result ≡ count d) × (result ≤ 16777216) }
{
    1 << (4 * d)
}

// Where the section of depth d starts: each section before it has a count of 4 bytes, and each word before it 2.
pub fn start_of(d: usize) -> usize
    requires { d ≤ 7 }
    ensures { (result ≡ start d) × (result ≤ 35791422) }
{
    if d == 0 {
        return OPENING;
    }
    OPENING + 4 * d + 2 * sizes::words_of(d - 1)
}

// The level of a map whose image has n bytes, where n is one of the seven lengths.
pub fn image_level(n: usize) -> Option<usize>
    ensures { result ≡ below 7 (image_level n) }
{
    (0..7).find(|&k| n == start_of(k + 1))
}
