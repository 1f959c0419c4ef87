// The access sheet: which part may read and write which cell, and which cells are swapped.
#![tactic(auto)]

mod mode;
pub mod refusal;
mod rights;
pub mod sheet;
