// The C interface: the functions of `hekthumar`, exported under the same names, with the same clauses. Every one accepts every input; a refusal
// changes no lent byte. A byte buffer is a pointer and a length.

#![tactic(auto)]

pub mod accesses;
pub mod addresses;
pub mod changes_of;
pub mod invocations;
pub mod records_of;
