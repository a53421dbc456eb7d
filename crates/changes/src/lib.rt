// What a transaction changed: the change list.

#![tactic(auto)]

pub mod copies;
pub mod entry;
pub mod list;
