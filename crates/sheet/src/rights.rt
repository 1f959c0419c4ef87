ghost use Rattle.std.specs.Prelude.{◌≡◌, true};
ghost use Rattle.part.specs.Rows.{exclusive};

use part::set::Mask;

mod ops;

// The parts that may read a cell, and those that may write it; what one may write no other may touch.
#[repr(C)]
#[derive(Clone, Copy)]
pub(crate) struct Rights {
    pub(crate) read: Mask,
    pub(crate) write: Mask,
    ghost exclusive: { exclusive read write ≡ true },
}
