// One word and how it turns, the seven sizes, alignment, and where a word stands: what every layer above rests on.
// Internal: programs use the calls of the crate bitmap. A function here may ask something of its caller.
#![tactic(auto)]

pub mod align;
pub mod kind;
pub mod place;
pub mod sizes;
pub mod table;
pub mod turn;
pub mod word;
