#![tactic(auto)]
// The readings file, what an import of it answers, and the journal listing.
pub mod answer;
pub mod columns;
pub mod fault;
mod fields;
pub mod import;
pub mod laws;
pub mod lines;
pub mod listing;
pub mod piece;
pub mod reading;
#[cfg(test)]
mod tests;
