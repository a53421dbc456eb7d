// The invariant of stack and heap over begin, call, return and resize: which frame holds which page, and with which tag. It holds
// definitions and proofs, and no code.

#![tactic(auto)]
