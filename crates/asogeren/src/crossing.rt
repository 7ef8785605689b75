// How an answer crosses to C. specs/Crossed.antt says it of what a call says, specs/Answer.antt of bitmap what each answer says.
ghost use Rattle.std.specs.Prelude.{◌≡◌};
ghost use Rattle.bitmap.specs.Answer.{given, refused, number};
ghost use Rattle.asogeren.specs.Crossed.{crossed};

use bitmap::Refusal;

// What every call returns: refusal 0 and a value, or the number of the refusal and value 0. Two numbers, since C has no Result.
#[repr(C)]
#[derive(Clone, Copy, Debug, PartialEq, Eq)]
pub struct Answer {
    pub refusal: u64,
    pub value: u64,
}

fn of_value(v: u64) -> Answer
    ensures { result ≡ crossed (given v) }
{
    Answer {
        refusal: 0,
        value: v,
    }
}

fn of_refusal(n: Refusal) -> Answer
    ensures { result ≡ crossed (refused (number n)) }
{
    Answer {
        refusal: bitmap::number(n) as u64,
        value: 0,
    }
}

// What a call gives where it is not refused, and the number that it crosses as.
pub trait Value {
    ghost use Rattle.std.specs.Prelude.{ℕ};

    ghost counts: { Self → ℕ };

    fn count(self) -> u64
        ensures { result ≡ counts self };
}

// A take, a look-up and an image give a number.
impl Value for usize {
    ghost counts = { λ n. n };

    fn count(self) -> u64 {
        self as u64
    }
}

// A change gives nothing, which is 0.
impl Value for () {
    ghost counts = { λ _. 0 };

    fn count(self) -> u64 {
        0
    }
}

// A test gives 1 for yes and 0 for not.
impl Value for bool {
    ghost use Rattle.bitmap.specs.Answer.{digit};

    ghost counts = { digit };

    fn count(self) -> u64 {
        u64::from(self)
    }
}

impl<T: Value> From<Result<T, Refusal>> for Answer {
    ghost use Rattle.std.specs.Prelude.{◌≡◌};
    ghost use Rattle.bitmap.specs.Answer.{said};
    ghost use Rattle.asogeren.specs.Crossed.{crossed};

    ghost from_gives = { λ answer a. a ≡ crossed (said T.counts answer) };

    fn from(answer: Result<T, Refusal>) -> Answer {
        match answer {
            Ok(v) => of_value(v.count()),
            Err(n) => of_refusal(n),
        }
    }
}
