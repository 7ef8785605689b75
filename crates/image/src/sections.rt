// The sections of an image as they are written from a map, one depth after the other. The map's level and words are two parameters, as in
// the crates below.
ghost use Rattle.std.specs.Prelude.{◌≡◌, suc, ◌≤◌, length};
ghost use Rattle.words.specs.Sizes.{words};
ghost use Rattle.image.specs.Bytes.{written};
ghost use Rattle.image.specs.Depths.{depth_words};
ghost use Rattle.image.specs.Image.{section, image, start, image_length};

use crate::{bytes, layout};
use words::place;

// Writes the section of depth d of a map of level k to its place in the image.
pub fn write_section(k: usize, d: usize, s: &[u16], target: &mut [u8])
    requires { (k ≤ 6) × (d ≤ k) × (length s.now ≡ words k) × (start (suc d) ≤ length target.old) }
    ensures { target.new ≡ written (start d) (section (depth_words k d s.now)) target.old }
{
    let n = layout::count_of(d);
    let from = layout::start_of(d);
    bytes::put_count(target, from, n);
    // by number: `word_place` and the place in the image go by it
    for j in 0..n {
        let w = s[place::word_place(k, d, j)];
        bytes::put_word(target, from + 4 + 2 * j, w);
    }
}

// Writes the image of a map of level k.
pub fn write_all(k: usize, s: &[u16], target: &mut [u8])
    requires { (k ≤ 6) × (length s.now ≡ words k) × (image_length k ≤ length target.old) }
    ensures { target.new ≡ written 0 (image k s.now) target.old }
{
    // by depth: `write_section` goes by it
    for d in 0..k + 1 {
        write_section(k, d, s, target);
    }
}
