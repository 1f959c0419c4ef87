// Show files: records of 32 bytes, chained by their next indices.
#![tactic(auto)]

pub mod file;
pub mod refusal;
