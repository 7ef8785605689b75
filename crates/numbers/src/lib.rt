// The numbers of a line: what a program that plays a script or a list reads of each line.
#![tactic(auto)]

ghost use Rattle.std.specs.Prelude.{◌≡◌, length};
ghost use Rattle.numbers.specs.Numbers.{longer, number, number_behind, NumbersOf};

// The number with one digit more; a byte below the digits is passed over. By hand: a byte above them counts too, as the programs read it.
fn longer(x: usize, digit: u8) -> usize
    ensures { result ≡ longer x digit }
{
    match digit.checked_sub(b'0') {
        Some(d) => x.wrapping_mul(10).wrapping_add(usize::from(d)),
        None => x,
    }
}

// The number that the bytes of a part make.
fn number(part: &[u8]) -> usize
    ensures { result ≡ number part.now }
{
    part.iter().fold(0, |x, b| longer(x, *b))
}

// The number behind so many spaces; 0 where there are fewer, as the programs go by it.
fn number_behind(line: &[u8], spaces: usize) -> usize
    ensures { result ≡ number_behind spaces line.now }
{
    match line.split(|b| *b == b' ').nth(spaces) {
        Some(part) => number(part),
        None => 0,
    }
}

// The numbers of the first N parts of a line, which spaces stand between; 0 for each part that it doesn't have.
// How many there are is a clause too, since a proof from the contract alone has the array as a list of any length.
pub fn of_line<const N: usize>(line: &[u8]) -> [usize; N]
    ensures value { NumbersOf N line.now result }
    ensures len { length result ≡ N }
{
    std::array::from_fn(|k| number_behind(line, k))
}
