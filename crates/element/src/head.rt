// A moving head: where it points, and its colour.
ghost use Rattle.std.specs.Prelude.{◌≡◌, ◌<◌, true};
ghost use Rattle.element.specs.Bytes.{in_bytes};

use crate::colour::Colour;

pub mod make;
pub mod packing;
pub mod show;

#[derive(Clone, Copy, PartialEq, Eq, Debug)]
pub struct Head {
    pub pan: u16,
    pub tilt: u16,
    pub colour: Colour,
    ghost panned: { pan < 65536 },
    ghost tilted: { tilt < 65536 },
    ghost coloured: { in_bytes colour ≡ true },
}
