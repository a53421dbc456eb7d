// The interface: thin functions over the proved calls, which `hekthumar_c` exports to C. Every one accepts every input; a refusal changes no
// lent byte.

#![tactic(auto, unfolding(crate::specs::Steps::step_of))]

pub mod accesses;
pub mod addresses;
pub mod changes_of;
pub mod invocations;
pub mod outcomes;
pub mod record_reads;
pub mod records_of;
pub mod values;
