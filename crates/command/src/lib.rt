// Commands as a record holds them, and the log record that answers one.
#![tactic(auto)]

pub mod command;
pub mod decode;
pub mod kind;
pub mod log;
pub mod malformed;
pub mod refusal;
