#![tactic(auto)]
// The clerk's calls: months are opened, fixed and posted.
pub mod fixed;
pub mod fixing;
mod months;
pub mod opening;
pub mod paper;
pub mod posting;
#[cfg(test)]
mod tests;
mod writing;
