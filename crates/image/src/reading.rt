// An image as it is read: looked at, and read into a map.
ghost use Rattle.std.specs.Prelude.{◌≡◌, ◌+◌, ◌≤◌, ◌<◌, length};
ghost use Rattle.std.specs.Option.{MatchOption};
ghost use Rattle.words.specs.Place.{count};
ghost use Rattle.words.specs.Sizes.{words};
ghost use Rattle.words.specs.Tree.{true?};
ghost use Rattle.image.specs.Bytes.{written};
ghost use Rattle.image.specs.Image.{image_length, image_level};
ghost use Rattle.image.specs.Reading.{count_in, counted, word_in, word_true, depth_true, map_of};

use crate::{bytes, layout};
use words::{place, word};

// Bytes that have the length of an image of a map of the level.
#[derive(Clone, Copy)]
pub struct Image<'a> {
    pub level: usize,
    bytes: &'a [u8],
    ghost sized: { (level ≤ 6) × (length bytes.now ≡ image_length level) },
}

impl<'a> Image<'a> {
    // The bytes as an image, where their length is that of one.
    pub fn of(bytes: &'a [u8]) -> Option<Image<'a>>
        ensures { MatchOption result (7 ≤ image_level (length bytes.now)) (λ i. (i.level ≡ image_level (length bytes.now)) × (i.bytes.now ≡ bytes.now)) }
    {
        let level = layout::image_level(bytes.len())?;
        Some(Image { level, bytes })
    }

    // Word j of the section of depth d.
    fn word(&self, d: usize, j: usize) -> u16
        requires { (d ≤ self.now.level) × (j < count d) }
        ensures { result ≡ word_in self.now.bytes.now d j }
    {
        bytes::word_at(self.bytes, layout::start_of(d) + 4 + 2 * j)
    }

    // The word count of the section of depth d.
    fn count(&self, d: usize) -> usize
        requires { d ≤ self.now.level }
        ensures { result ≡ count_in self.now.bytes.now d }
    {
        bytes::count_at(self.bytes, layout::start_of(d))
    }

    // Whether each section has the word count of its depth.
    pub fn counts_right(&self) -> bool
        ensures { result ≡ counted self.now.level self.now.bytes.now }
    {
        (0..self.level + 1).all(|d| self.count(d) == layout::count_of(d))
    }

    // Whether word m below the depth d is not 0 exactly where its bit in the word above it is set.
    fn word_true(&self, d: usize, m: usize) -> bool
        requires { (d < self.now.level) × (m < count (d + 1)) }
        ensures { result ≡ word_true (word_in self.now.bytes.now) d m }
    {
        word::test(self.word(d, m / 16), m % 16) == (self.word(d + 1, m) != 0)
    }

    // Whether that is so of each word below the depth d.
    fn depth_true(&self, d: usize) -> bool
        requires { d < self.now.level }
        ensures { result ≡ depth_true (word_in self.now.bytes.now) d }
    {
        (0..layout::count_of(d + 1)).all(|m| self.word_true(d, m))
    }

    // Whether the map is true.
    pub fn map_true(&self) -> bool
        ensures { result ≡ true? self.now.level (map_of self.now.level self.now.bytes.now) }
    {
        (0..self.level).all(|d| self.depth_true(d))
    }

    // Writes the map to the first words of the target.
    pub fn read_to(&self, target: &mut [u16])
        requires { words self.now.level ≤ length target.old }
        ensures { target.new ≡ written 0 (map_of self.now.level self.now.bytes.now) target.old }
    {
        // by depth and number: `word_place` goes by both
        for d in 0..self.level + 1 {
            for j in 0..layout::count_of(d) {
                target[place::word_place(self.level, d, j)] = self.word(d, j);
            }
        }
    }
}
