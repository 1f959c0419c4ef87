ghost use Rattle.std.specs.Prelude.{◌<◌, ◌≤◌};
ghost use Rattle.sheet.specs.Sound.{FrontWithin, FrontZero, FrontDistinct, reads, writes};

use crate::refusal::Refusal;
use crate::rights::Rights;

pub mod ops;

// The largest sheet.
pub const CELLS: usize = 512;

// How many cells may be swapped.
pub const SWAPS: usize = 16;

// The rights on the cells, and the swapped cells: an array and its length, since C keeps a sheet in place. The facts stand
// in the type, so no sheet is without them: swapped cells are distinct, below the size, and their rows are zero.
#[repr(C)]
#[derive(Clone, Copy)]
pub struct Sheet {
    rights: [Rights; CELLS],
    size: usize,
    swapped: [usize; SWAPS],
    count: usize,
    ghost least: { 0 < size },
    ghost most: { size ≤ 512 },
    ghost few: { count ≤ 16 },
    ghost within: { FrontWithin size swapped count },
    ghost unread: { FrontZero (reads rights) swapped count },
    ghost unwritten: { FrontZero (writes rights) swapped count },
    ghost distinct: { FrontDistinct swapped count },
}

// A refused change: the old sheet, and why. A refused making has a sheet of one cell.
#[derive(Drop)]
pub struct Refused {
    pub sheet: Sheet,
    pub why: Refusal,
}
