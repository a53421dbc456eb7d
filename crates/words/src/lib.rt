// Little-endian numbers and runs of bytes in a byte slice: the lowest layer, by which every format is read and written. The functions
// ask that what they touch lies in the slice.
#![tactic(auto)]

pub mod numbers;
pub mod runs;
