#![tactic(auto)]
// A list of calls, its run, and the law that meter and accounts agree.
pub mod call;
pub mod desk;
pub mod run;
