// The playback host for drivers in other languages: rigs, hosts that the caller keeps, and runs over packed words.
#![tactic(auto)]

pub mod calls;
pub mod kept_host;
pub mod outcome;
mod own;
pub mod rig;
mod runs;
