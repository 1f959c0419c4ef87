// Refusals and kinds in words.
#![tactic(auto)]

pub mod reason;
pub mod refusal;
