// A kept host that goes on over a store, through up to two held-write layers, which are closed again at the end of each call.
#![tactic(auto)]

pub mod show;
pub mod single;
