// The setup text, line by line: words, numbers and directives.
#![tactic(auto)]

pub mod directive;
mod keyword;
pub mod line;
pub mod number;
pub mod pieces;
pub mod problem;
