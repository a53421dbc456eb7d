// Invocations: begin, call, return.

#![tactic(auto)]

pub mod begin;
pub mod calls;
pub mod program;
