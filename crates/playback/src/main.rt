// Plays show files on a host made from a setup text. `playback_heads` is the same program: each crate is run once by the gate, with its own words.
#![tactic(auto)]

use program::playback::playback;
use std::process::ExitCode;

// A fault is told by the program; the status says that there was one.
fn main(rt: HostRuntime) -> ExitCode {
    match playback(&rt) {
        Ok(()) => ExitCode::SUCCESS,
        Err(_) => ExitCode::FAILURE,
    }
}
