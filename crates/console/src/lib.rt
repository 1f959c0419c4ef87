// What the program needs beside the host: its options, its faults and the table of a run.
#![tactic(auto)]

pub mod fault;
pub mod flag;
mod front;
pub mod options;
pub mod table;
