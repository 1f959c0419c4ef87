// The held-write layer: a store over any store, which sends writes down late.
#![tactic(auto)]

pub mod held;
pub mod held_write;
pub mod pile;
pub mod table;
