// Lists of cell numbers, as a command's record holds them.
#![tactic(auto)]

pub mod list;
