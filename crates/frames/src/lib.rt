// The frame table of the control block: which frame of the pool holds which page. An entry has 8 bytes: a use byte, a tag byte,
// the account, the page, and two zero bytes.

#![tactic(auto)]

pub mod claim;
pub mod table;
