#![tactic(auto)]
// The settlement book of one heat company: its tables, when they are sound, and the calls of the office and the meter staff.
pub mod book;
#[cfg(test)]
mod call_tests;
pub mod check;
pub mod limits;
mod memory;
mod meters;
mod office;
pub mod order;
pub mod records;
pub mod tables;
#[cfg(test)]
mod tests;
