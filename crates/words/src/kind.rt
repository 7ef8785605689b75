// The two kinds of change that a range of positions can undergo. The Rust hands `for_range` a closure; document 01 makes it two named changes.

// Make free, or make taken.
#[derive(Clone, Copy)]
pub enum Change {
    Insert,
    Remove,
}
