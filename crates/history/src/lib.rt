// The theorem over every history of calls: the replay, the frame count rule, and that a refused call changes nothing. It holds
// definitions and proofs, and no code: the calls are those of the crates below, by the definitions that their contracts cite.

#![tactic(auto)]
