// Moving elements between a store and lists: a command's cells, and the rows of swapped cells.
#![tactic(auto)]

pub mod row;
pub mod transfer;
