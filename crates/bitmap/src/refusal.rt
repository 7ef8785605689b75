// Why a call is refused. specs/Answer.antt gives the documents' number for each case, and these are the same.

// In the order of the numbers: 1 to 10 are document 01's, 11 to 18 document 02's.
#[derive(Clone, Copy, Debug, PartialEq, Eq)]
pub enum Refusal {
    WordCount = 1,
    PastEnd = 2,
    NoSize = 3,
    Alignment = 4,
    NoneFree = 5,
    AlreadyFree = 6,
    Untrue = 7,
    BadImage = 8,
    TooShort = 9,
    BadLine = 10,
    NoAllowance = 11,
    BookFull = 12,
    NoLease = 13,
    BadBook = 14,
    NoHolder = 15,
    BadRun = 16,
    Overlap = 17,
    BlockSize = 18,
}
