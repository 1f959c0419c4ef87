// Answers with values: elements packed into the words of a log record.
#![tactic(auto)]

pub mod values;
