ghost use Rattle.std.specs.Prelude.{◌≡◌, ◌<◌, ◌≤◌, ◌&&◌, length, nat_lt};
ghost use Rattle.part.specs.Sets.{parts};
ghost use Rattle.cells.specs.Cells.{member, Within, Distinct};
ghost use Rattle.sheet.specs.Laws.{Kept, TakenIs16};
ghost use Rattle.sheet.specs.Rows.{blank, granted, made, swapped, touchable};
ghost use Rattle.sheet.specs.View.{Granting, Swapping, outcome, rows_of};

use super::{CELLS, Refused, SWAPS, Sheet};
use crate::mode::Mode;
use crate::refusal::Refusal;
use crate::rights::Rights;
use part::set::{PARTS, Part, contains};

impl Sheet {
    // A sheet of that many cells with no bits and no swapped cells.
    fn of_size(size: usize) -> Sheet
        requires { (0 < size) × (size ≤ 512) }
        ensures { rows_of result ≡ blank size }
    {
        Sheet {
            rights: [Rights::none(); CELLS],
            size,
            swapped: [0; SWAPS],
            count: 0,
        }
    }

    // A sheet of that many cells with no bits and no swapped cells; refused for 0 and over 512, with a sheet of one cell.
    pub fn new(size: usize) -> Result<Sheet, Refused>
        ensures { outcome result ≡ made size }
    {
        if size == 0 || size > CELLS {
            return Err(Refused {
                sheet: Sheet::of_size(1),
                why: Refusal::Size,
            });
        }
        Ok(Sheet::of_size(size))
    }

    // Whether the cell is swapped.
    fn is_swapped(&self, cell: usize) -> bool
        ensures { result ≡ member (rows_of self.now).swaps cell }
    {
        self.swaps().contains(&cell)
    }

    // The rights on the cell once the part's bits are added, or why they are not.
    fn granting(&self, cell: usize, part: u8, mode: u8) -> Result<Rights, Refusal>
        ensures { Granting parts (rows_of self.now) cell part mode result }
    {
        if cell >= self.size {
            return Err(Refusal::Cell);
        }
        let part = Part::new(part).ok_or(Refusal::Part)?;
        let mode = Mode::try_from(mode)?;
        if self.is_swapped(cell) {
            return Err(Refusal::Taken);
        }
        self.rights[cell].widened(part, mode).ok_or(Refusal::Taken)
    }

    // Adds the part's bits to the cell's rows: mode 1 reads, 2 writes, 0 and 3 do both.
    // Any byte is taken, since a mode over 3 is a refusal.
    pub fn grant(self, cell: usize, part: u8, mode: u8) -> Result<Sheet, Refused>
        ensures after { outcome result ≡ granted parts (rows_of self) cell part mode }
        ensures taken { TakenIs16 parts (rows_of self) cell part mode (outcome result).number }
    {
        match self.granting(cell, part, mode) {
            Ok(rights) => {
                let mut sheet = self;
                sheet.rights[cell] = rights;
                Ok(sheet)
            }
            Err(why) => Err(Refused { sheet: self, why }),
        }
    }

    // Whether the cell may become a swapped one, or why not.
    fn swapping(&self, cell: usize) -> Result<(), Refusal>
        ensures { Swapping (rows_of self.now) cell result }
    {
        if cell >= self.size {
            return Err(Refusal::Cell);
        }
        let rights = self.rights[cell];
        if self.is_swapped(cell) || rights.read | rights.write != 0 {
            return Err(Refusal::Taken);
        }
        if self.count >= SWAPS {
            return Err(Refusal::Full);
        }
        Ok(())
    }

    // Makes the cell a swapped one, behind those that are.
    pub fn swap(self, cell: usize) -> Result<Sheet, Refused>
        ensures { outcome result ≡ swapped (rows_of self) cell }
    {
        match self.swapping(cell) {
            Ok(()) => {
                let mut sheet = self;
                sheet.swapped[sheet.count] = cell;
                sheet.count += 1;
                Ok(sheet)
            }
            Err(why) => Err(Refused { sheet: self, why }),
        }
    }

    // How many cells the sheet is for.
    pub fn size(&self) -> usize
        ensures value { result ≡ (rows_of self.now).size }
        ensures bounds { (0 < result) × (result ≤ 512) }
    {
        self.size
    }

    // The swapped cells, in the order of swapping; with what holds of every sheet.
    pub fn swaps(&self) -> &[usize]
        ensures value { result.now ≡ (rows_of self.now).swaps }
        ensures few { length result.now ≤ 16 }
        ensures within { Within (rows_of self.now).size result.now }
        ensures distinct { Distinct result.now }
        ensures kept { Kept (rows_of self.now) }
    {
        &self.swapped[..self.count]
    }

    // Whether the part may write the cell, or read it, while it has the turn; no part from PARTS on may.
    // The rules tell the right by this flag.
    pub fn may_touch(&self, cell: usize, part: u8, writing: bool) -> bool
        ensures { result ≡ nat_lt part parts && touchable (rows_of self.now) writing part cell }
    {
        if part >= PARTS || cell >= self.size {
            return false;
        }
        let rights = self.rights[cell];
        let row = if writing { rights.write } else { rights.read };
        contains(row, part) || self.is_swapped(cell)
    }
}
