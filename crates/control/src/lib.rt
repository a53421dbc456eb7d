// The control block: the VM's own state, which the host lends and the calls write. A header of six u32,
// then 17 shadow records of 264 bytes, then the frame table, which the crate `frames` is about.

#![tactic(auto)]

pub mod buffers;
pub mod code;
pub mod header;
pub mod shadow;
