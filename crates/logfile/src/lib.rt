// The log as a file for the driver.
#![tactic(auto)]

pub mod binary;
