#![tactic(auto)]
// Sharing an amount among objects so that nothing is lost, and the refusals of the whole product.
pub mod amount;
pub mod cut;
pub mod key;
pub mod limits;
pub mod refusal;
pub mod rounding;
pub mod share;
#[cfg(test)]
mod tests;
pub mod weigh;
