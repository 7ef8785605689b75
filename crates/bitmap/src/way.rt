// How a run is given back: a name and no closure, since `given_back` and `given_after` of specs/Ways.antt go by it.

// Whole or not at all, or the crate's way.
#[derive(Clone, Copy)]
pub enum Way {
    Whole,
    Old,
}
