// Parts, sets of parts as masks, and the two rows of a cell.
#![tactic(auto)]

pub mod row;
pub mod set;
