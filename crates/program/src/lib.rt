// The program: it reads a setup and its shows, plays them, prints what was done and writes the log.
#![tactic(auto)]

mod list;
pub mod playback;
mod print;
mod read;
