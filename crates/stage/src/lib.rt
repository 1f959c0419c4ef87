// Plays show files on a host that a setup asks for: any kind of element, either store, and up to two layers.
#![tactic(auto)]

pub mod fault;
pub mod last_cells;
mod memory;
mod play;
pub mod session;
pub mod stage;
