// The playback host: one box that several parts use in turn.
#![tactic(auto)]

pub mod host;
mod rights;
mod rows;
