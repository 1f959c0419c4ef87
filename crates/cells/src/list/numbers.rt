ghost use Rattle.std.specs.Prelude.{◌≡◌};
ghost use Rattle.std.specs.Iterator.{YieldsFirst, item_count};
ghost use Rattle.cells.specs.Cells.{cell_list};

// The cell numbers of a run of bytes that are still to come, in their order.
#[derive(Clone, Copy)]
pub struct Numbers<'a> {
    bytes: &'a [u8],
}

impl<'a> Numbers<'a> {
    // The cell numbers that a run of bytes holds.
    pub fn of(bytes: &'a [u8]) -> Numbers<'a>
        ensures { cell_list result.bytes.now ≡ cell_list bytes.now }
    {
        Numbers { bytes }
    }
}

impl<'a> Iterator for Numbers<'a> {
    type Item = usize;

    ghost next_gives = { YieldsFirst (λ s. cell_list s.bytes.now) };

    ghost remaining = { item_count (λ s. cell_list s.bytes.now) };

    fn next(&mut self) -> Option<usize> {
        match self.bytes {
            [low, high, rest @ ..] => {
                self.bytes = rest;
                Some(u16::from_le_bytes([*low, *high]) as usize)
            }
            _ => None,
        }
    }
}
