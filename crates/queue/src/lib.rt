// Port queues of packed messages.
#![tactic(auto)]

pub mod examples;
pub mod message;
mod places;
pub mod port_queue;
pub mod queues;
