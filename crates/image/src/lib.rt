// The stored image of a map, after document 01: written to lent bytes and read from them.
// Both calls are total: specs/Calls.antt says what they answer and leave in the target, for every input.
#![tactic(auto)]

ghost use Rattle.std.specs.Prelude.{◌≡◌};
ghost use Rattle.bitmap.specs.Answer.{taken};
ghost use Rattle.image.specs.Calls.{write_says, write_after, read_says, read_after};

use bitmap::Refusal;
use reading::Image;
use words::sizes;

mod bytes;
mod layout;
mod reading;
mod sections;

// Writes the image of a true map to the first bytes of the target, and answers how many bytes those are.
pub fn write(store: &[u16], target: &mut [u8]) -> Result<usize, Refusal>
    ensures result_value { taken result ≡ write_says store.now target.old }
    ensures target_after { target.new ≡ write_after store.now target.old }
{
    let k = sizes::level_of(store.len()).ok_or(Refusal::WordCount)?;
    if !bitmap::check(store)? {
        return Err(Refusal::Untrue);
    }
    let n = layout::start_of(k + 1);
    if target.len() < n {
        return Err(Refusal::TooShort);
    }
    sections::write_all(k, store, target);
    Ok(n)
}

// Reads the image of a true map into the first words of the target, and answers how many levels the map has.
pub fn read(bytes: &[u8], target: &mut [u16]) -> Result<usize, Refusal>
    ensures result_value { taken result ≡ read_says bytes.now target.old }
    ensures target_after { target.new ≡ read_after bytes.now target.old }
{
    let image = Image::of(bytes).ok_or(Refusal::BadImage)?;
    if !image.counts_right() {
        return Err(Refusal::BadImage);
    }
    if target.len() < sizes::words_of(image.level) {
        return Err(Refusal::TooShort);
    }
    if !image.map_true() {
        return Err(Refusal::Untrue);
    }
    image.read_to(target);
    Ok(image.level + 1)
}
