// Cell stores: the interface, and two stores over lent memory.
#![tactic(auto)]

pub mod access;
pub mod borrowed;
pub mod fault;
pub mod flat;
pub mod packed;
pub mod replay;
pub mod store;
