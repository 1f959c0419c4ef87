// Port sets, and which parts can reach a part through them.
#![tactic(auto)]

pub mod ports;
pub mod refusal;
