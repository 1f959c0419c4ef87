ghost use Rattle.std.specs.Prelude.{◌≡◌, length};

use part::set::Mask;

pub mod ops;

// How many ports there are; they are numbered from 0.
pub const PORTS: u8 = 16;

// The parts that may send to a port, and those that may receive from it; they may overlap.
#[repr(C)]
#[derive(Clone, Copy, PartialEq, Eq, Debug)]
pub struct Port {
    pub senders: Mask,
    pub receivers: Mask,
}

// The sets of all ports. An array, since C keeps it in place.
#[repr(C)]
#[derive(Clone, Copy)]
pub struct Ports {
    ports: [Port; 16],
    ghost whole: { length ports ≡ 16 },
}
