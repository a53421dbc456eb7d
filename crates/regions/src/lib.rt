// The regions of anonymous pages: resizing the stack and the heap of the current invocation.

#![tactic(auto)]

pub mod grow;
pub mod resize;
pub mod shrink;
