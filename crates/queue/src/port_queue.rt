ghost use Rattle.std.specs.Prelude.{◌≤◌};

use crate::message::Message;

pub mod ops;

// The most messages that a queue holds.
pub const MESSAGES: usize = 8;

// At most eight messages, the oldest first, and how many were missed; an array and its length, as in a message.
#[repr(C)]
#[derive(Clone, Copy)]
pub struct PortQueue {
    items: [Message; MESSAGES],
    len: usize,
    missed: u8,
    ghost few: { len ≤ 8 },
}

// What a queue gives: its first message, and how many were missed.
#[derive(Clone, Copy)]
pub struct First {
    pub message: Message,
    pub missed: u8,
}
