use crate::port_queue::PortQueue;

pub mod ops;

// How many ports there are; they are numbered from 0. The crate of the ports has the same number; queues stand on elements alone.
pub const PORTS: u8 = 16;

// The queues of the sixteen ports. An array, since C keeps it in place.
#[repr(C)]
#[derive(Clone, Copy)]
pub struct Queues {
    queues: [PortQueue; 16],
}

// What a receive gives beside the elements: how many were written, and how many messages were missed.
#[derive(Clone, Copy, PartialEq, Eq, Debug)]
pub struct Taken {
    pub count: usize,
    pub missed: u8,
}
