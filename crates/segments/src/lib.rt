// The rules by segment type: which segments there are, which of their bytes are present, who may store. Numbers in, a verdict out:
// no function here reads a buffer.

#![tactic(auto)]

pub mod kinds;
pub mod rules;
