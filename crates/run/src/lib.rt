// Runs of show files on a host.
#![tactic(auto)]

pub mod refusal;
pub mod show;
