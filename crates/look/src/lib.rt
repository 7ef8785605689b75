// What is looked up in a map and leaves it as it is: the next free position, the end of a free stretch, the lowest run, where the lowest
// set bits lead, leaf bits, and the map's truth. Over a map of level k and its lent words. Internal, as the crate words.
// Level and words stay two parameters. A struct's ghost field would hold the fact that is in each contract, but a clause would say
// m.entry.level and m.entry.lent.now where it says k and s.now, and each table of the levels would build the struct anew.
#![tactic(auto)]

pub mod check;
pub(crate) mod child;
pub mod contiguous;
pub mod leaf;
pub mod lowest;
pub mod next;
pub mod stretch;
