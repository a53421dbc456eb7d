// Records by which programs pass data, in their memory: buffer descriptors, events, locations, call records, returned values. Each is read
// by one span load and written by one span store.

#![tactic(auto)]

mod fields;
pub mod laws;
pub mod reads;
pub mod record;
pub mod types;
pub mod writes;
