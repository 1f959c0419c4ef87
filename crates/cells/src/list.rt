ghost use Rattle.std.specs.Prelude.{◌≡◌, length, slice_index};
ghost use Rattle.cells.specs.Cells.{cell_list};

pub mod numbers;

// How many cell numbers a run of bytes holds.
pub fn count(bytes: &[u8]) -> usize
    ensures { result ≡ length (cell_list bytes.now) }
{
    bytes.len() / 2
}

// Cell number `i` of a run of bytes, or 0 beyond its end.
// Callers ask below `count`. By bytes: of pairs by `as_chunks` the value stays unproved.
pub fn cell(bytes: &[u8], i: usize) -> usize
    ensures { result ≡ slice_index (cell_list bytes.now) i }
{
    if i >= bytes.len() / 2 {
        return 0;
    }
    u16::from_le_bytes([bytes[2 * i], bytes[2 * i + 1]]) as usize
}
