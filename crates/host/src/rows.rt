ghost use Rattle.std.specs.Prelude.{◌≡◌, ◌<◌, length, slice_set};

use part::set::Part;
use transfer::row::SaveRow;

// The part's row is this one from now on; the rows of the others stay.
pub(crate) fn keep(rows: &mut [SaveRow; 8], part: Part, row: SaveRow)
    ensures kept { rows.new ≡ slice_set rows.old part.number row }
    ensures one { part.number < length rows.old }
{
    rows[part.number as usize] = row;
}
