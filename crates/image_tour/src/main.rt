// A tour of the stored image: its lengths, round trips, every refusal, an image with one byte changed at each place, and every
// proper beginning of an image.
#![tactic(auto)]

use bitmap::{BitAlloc4K, BitAlloc16, BitAlloc64K, BitAlloc256, Refusal};
use std::io;

mod show;

fn main(rt: HostRuntime) -> io::Result<()> {
    round_trips(&rt)?;
    refusals(&rt)?;
    changed_bytes(&rt)?;
    beginnings(&rt)
}

// Maps of 2 to 4 levels: the free positions are chosen so that each depth has words that are 0 and words that are not.

fn two_levels() -> [u16; BitAlloc256::WORDS] {
    map([(0, 0x8009), (1, 0x0100), (4, 0xffff), (16, 0x8001)])
}

fn three_levels() -> [u16; BitAlloc4K::WORDS] {
    map([
        (0, 0x8004),
        (35, 0x0021),
        (36, 0x1234),
        (41, 0x00ff),
        (256, 0x8000),
        (272, 0x8000),
    ])
}

fn four_levels() -> [u16; BitAlloc64K::WORDS] {
    map([(0, 0x0080), (1912, 0x0001), (1913, 0x0002), (1915, 0xabcd)])
}

// A map whose words are 0 but for those at the given places.
fn map<const WORDS: usize, const SOME: usize>(some: [(usize, u16); SOME]) -> [u16; WORDS] {
    let mut s = [0; WORDS];
    for (i, w) in some {
        if let Some(word) = s.get_mut(i) {
            *word = w;
        }
    }
    s
}

fn round_trips(rt: &impl Print) -> io::Result<()> {
    show::title(rt, "there and back, 1 to 4 levels")?;
    there_and_back(rt, &[0x8421; BitAlloc16::WORDS], &mut [0; 6])?;
    there_and_back(rt, &two_levels(), &mut [0; 42])?;
    there_and_back(rt, &three_levels(), &mut [0; 558])?;
    there_and_back(rt, &four_levels(), &mut [0; 8754])
}

// Writes the map to an image, reads what was written, and writes what was read.
fn there_and_back<const WORDS: usize, const BYTES: usize>(
    rt: &impl Print,
    map: &[u16; WORDS],
    image: &mut [u8; BYTES],
) -> io::Result<()> {
    let mut back = [0; WORDS];
    let mut again = [0; BYTES];
    rt.write_all(b"write")?;
    show::answer(rt, b" bytes", image::write(map, image))?;
    rt.write_all(b", read")?;
    show::answer(rt, b" levels", image::read(image, &mut back))?;
    show::sameness(rt, *map == back)?;
    rt.write_all(b", write")?;
    show::answer(rt, b" bytes", image::write(&back, &mut again))?;
    show::sameness(rt, *image == again)?;
    rt.write_all(b"\n")
}

// A line for a write.
fn write_line(rt: &impl Print, map: &[u16], target: &mut [u8]) -> io::Result<()> {
    show::number(rt, b"write", map.len())?;
    show::number(rt, b" words to", target.len())?;
    show::answer_line(rt, b" bytes:", b" bytes", image::write(map, target))
}

// A line for a read.
fn read_line(rt: &impl Print, bytes: &[u8], target: &mut [u16]) -> io::Result<()> {
    show::number(rt, b"read", bytes.len())?;
    show::number(rt, b" bytes to", target.len())?;
    show::answer_line(rt, b" words:", b" levels", image::read(bytes, target))
}

fn refusals(rt: &impl Print) -> io::Result<()> {
    show::title(rt, "refusals")?;
    let mut bytes = [0; 64];
    write_line(rt, &[], &mut bytes)?;
    write_line(rt, &[0; 16], &mut bytes)?;
    let mut untrue = two_levels();
    untrue[2] = 1;
    let mut short = [0; 41];
    write_line(rt, &untrue, &mut short)?;
    let map = two_levels();
    write_line(rt, &map, &mut short)?;
    write_line(rt, &map, &mut bytes)?;
    more_refusals(rt)
}

fn more_refusals(rt: &impl Print) -> io::Result<()> {
    let mut image = image_of::<_, 42>(two_levels());
    let mut short = [0; 16];
    read_line(rt, &image, &mut short)?;
    let mut long = [0; 20];
    read_line(rt, &image, &mut long)?;
    read_line(rt, &[0; 43], &mut long)?;
    image[12] = 1;
    read_line(rt, &image, &mut short)?;
    read_line(rt, &image, &mut long)?;
    image[0] = 2;
    read_line(rt, &image, &mut short)
}

// The image of a map that has one of so many bytes.
fn image_of<const WORDS: usize, const BYTES: usize>(map: [u16; WORDS]) -> [u8; BYTES] {
    let mut image = [0; BYTES];
    let _ = image::write(&map, &mut image);
    image
}

// A line for each byte: what is answered where it alone is another.
fn changed_bytes(rt: &impl Print) -> io::Result<()> {
    show::title(rt, "an image of 2 levels with one byte changed")?;
    let image = image_of::<_, 42>(two_levels());
    // by number: it is printed
    for p in 0..image.len() {
        let mut changed = image;
        changed[p] ^= 1;
        let mut back = [0; BitAlloc256::WORDS];
        show::number(rt, b"byte", p)?;
        show::answer_line(rt, b":", b" levels", image::read(&changed, &mut back))?;
    }
    Ok(())
}

// Reads each proper beginning, and says how many are refused with 8 and what is answered to the others.
fn beginnings_of(rt: &impl Print, image: &[u8]) -> io::Result<()> {
    let mut refused = 0usize;
    // by number: it is printed
    for n in 0..image.len() {
        let mut back = [0; BitAlloc4K::WORDS];
        let answer = image::read(&image[..n], &mut back);
        if answer == Err(Refusal::BadImage) {
            refused += 1;
        } else {
            show::number(rt, b"first", n)?;
            show::answer_line(rt, b":", b" levels", answer)?;
        }
    }
    show::number(rt, b"the others: no 8,", refused)?;
    rt.write_all(b"\n")
}

fn beginnings(rt: &impl Print) -> io::Result<()> {
    show::title(rt, "every proper beginning of an image of 2 levels")?;
    beginnings_of(rt, &image_of::<_, 42>(two_levels()))?;
    show::title(rt, "every proper beginning of an image of 3 levels")?;
    beginnings_of(rt, &image_of::<_, 558>(three_levels()))
}
