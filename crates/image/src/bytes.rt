// Words and counts as bytes, lowest byte first. The place stands beside the bytes: a section's start says it. Each has a pair of functions:
// `from_le_bytes` and `to_le_bytes` are of one number type, and a function of any number of bytes would have to add them up by itself.
ghost use Rattle.std.specs.Prelude.{◌≡◌, ◌+◌, ◌≤◌, ◌<◌, length};
ghost use Rattle.image.specs.Bytes.{bytes_of, number_of, part, written};

// The word of the 2 bytes from at on.
pub fn word_at(bytes: &[u8], at: usize) -> u16
    requires { at + 2 ≤ length bytes.now }
    ensures { result ≡ number_of (part at 2 bytes.now) }
{
    u16::from_le_bytes([bytes[at], bytes[at + 1]])
}

// The number of the 4 bytes from at on.
pub fn count_at(bytes: &[u8], at: usize) -> usize
    requires { at + 4 ≤ length bytes.now }
    ensures { result ≡ number_of (part at 4 bytes.now) }
{
    u32::from_le_bytes([bytes[at], bytes[at + 1], bytes[at + 2], bytes[at + 3]]) as usize
}

// Writes the word w as the 2 bytes from at on.
pub fn put_word(target: &mut [u8], at: usize, w: u16)
    requires { at + 2 ≤ length target.old }
    ensures { target.new ≡ written at (bytes_of 2 w) target.old }
{
    target[at..at + 2].copy_from_slice(&w.to_le_bytes());
}

// Writes the number n as the 4 bytes from at on.
pub fn put_count(target: &mut [u8], at: usize, n: usize)
    requires { (at + 4 ≤ length target.old) × (n < 4294967296) }
    ensures { target.new ≡ written at (bytes_of 4 n) target.old }
{
    target[at..at + 4].copy_from_slice(&(n as u32).to_le_bytes());
}
