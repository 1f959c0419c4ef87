// What the program prints, one line a record.
#![tactic(auto)]

pub mod asks;
pub mod listing;
pub mod outcome;
pub mod row;
