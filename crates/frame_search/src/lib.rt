// The searches of the frame table: which frame holds a page, which frame is free, and whether enough are.

#![tactic(auto)]

mod counting;
pub mod finding;
mod keyed;
pub mod search;
