// What changes a map: a range made free or taken, one position, and the crate's way of giving a run back. Over a map of level k and its
// lent words; each function writes its words and answers nothing, or what a give-back met. Internal, as the crate words.
// The level and the words go side by side, and not as one struct: tried in give_back, and the caller's proof learns no more of the words that a
// part of it writes than how many they are.
// A range is two numbers, as document 01 has it.
#![tactic(auto)]

pub mod give_back;
pub mod position;
pub mod range;
