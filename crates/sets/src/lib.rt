// The two instruction sets: over levels and over heads.
#![tactic(auto)]

mod codes;
mod curve;
mod head_codes;
pub mod head_set;
mod level_codes;
pub mod level_set;
