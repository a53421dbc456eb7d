// What an access does with the place that translation names: load, store, fetch, span load, span store.

#![tactic(auto)]

mod copies;
pub mod loads;
pub mod stores;
