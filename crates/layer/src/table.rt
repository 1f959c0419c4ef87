ghost use Rattle.std.specs.Prelude.{◌≡◌, ◌≤◌, true, length, take};
ghost use Rattle.layer.specs.Holds.{apart};

use crate::held_write::HeldWrite;

// The held writes, the longest-held first: at most 16, and no cell twice.
// An array with a count, since a table can be copied.
#[derive(Clone, Copy)]
pub struct Table {
    writes: [HeldWrite; 16],
    count: usize,
    ghost whole: { length writes ≡ 16 },
    ghost few: { count ≤ 16 },
    ghost distinct: { apart (take count writes) ≡ true },
}

mod ops;
