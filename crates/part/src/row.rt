ghost use Rattle.std.specs.Prelude.{◌≡◌, true};
ghost use Rattle.part.specs.Rows.{exclusive, Apart, OnePart};

use crate::set::Mask;

// Whether the ones in a cell's two rows taken together number at most one.
pub fn is_exclusive(read: Mask, write: Mask) -> bool
    ensures value { result ≡ exclusive read write }
    ensures apart { result ≡ true → Apart read write }
    ensures one { OnePart }
{
    (read | write).count_ones() <= 1
}
