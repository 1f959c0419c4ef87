// A level: how bright a lamp is, 0 to 255.
ghost use Rattle.std.specs.Prelude.{◌<◌};

pub mod make;
pub mod packing;
pub mod show;

#[repr(C)]
#[derive(Clone, Copy, PartialEq, Eq, PartialOrd, Ord, Debug)]
pub struct Level {
    pub value: u8,
    ghost byte: { value < 256 },
}
