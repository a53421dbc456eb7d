// Translation: from an address to a place or a refusal. It changes nothing. Per segment what its row asks is sought, and answered by the row's
// tests and the place.

#![tactic(auto)]

mod accounts;
mod answer;
mod checks;
mod framed;
pub mod place;
mod regions;
pub mod request;
mod sought;
pub mod translation;
mod vm;
