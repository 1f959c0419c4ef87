// Element kinds: what a cell holds.
#![tactic(auto)]

pub mod clear;
pub mod colour;
pub mod element;
pub mod head;
pub mod level;
pub mod words;
