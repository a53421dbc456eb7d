// The numbers of every format, each once: how long the buffers and their parts are, how many parts there may be, and the offsets that
// follow from these. `specs/` has them for definitions and proofs; each contract that speaks of a number holds the two together.

#![tactic(auto)]

pub mod address;
pub mod control;
pub mod list;
pub mod page;
pub mod snapshot;
