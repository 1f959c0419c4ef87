// Instruction sets: what a code makes of a list of elements.
#![tactic(auto)]

pub mod apply;
pub mod fault;
pub mod set;
