// How a word goes in a single take or give-back, between empty, which is 0, and not empty.

// It stayed empty or stayed not empty, it became empty, or it became not empty.
#[derive(Clone, Copy)]
pub enum Turn {
    Stayed,
    BecameEmpty,
    BecameNotEmpty,
}

// The new word, and how the old one turned.
#[derive(Clone, Copy)]
pub struct Turned {
    pub word: u16,
    pub turn: Turn,
}
