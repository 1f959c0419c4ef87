ghost use Rattle.std.specs.Prelude.{◌≡◌, Some};
ghost use Rattle.sheet.specs.Texts.{sheet_text};
ghost use Rattle.sheet.specs.View.{number_of};

use std::fmt;

// Why a sheet refuses; each has its number.
#[derive(Clone, Copy, PartialEq, Eq, Debug)]
pub enum Refusal {
    // A part from PARTS on.
    Part = 9,
    // A size of 0 or over 512.
    Size = 14,
    // A cell not below the size.
    Cell = 15,
    // A cell that is swapped, or on which another part has a bit; for a swap, any bit.
    Taken = 16,
    // As many cells are swapped as may be.
    Full = 17,
    // A mode over 3.
    Mode = 18,
}

impl Refusal {
    // The number of the refusal; a method, since `u8::from(why)` would not say what the number is.
    pub fn number(self) -> u8
        ensures { result ≡ number_of self }
    {
        self as u8
    }
}

// The refusal in words.
impl fmt::Display for Refusal {
    ghost output = { λ r. Some (sheet_text r) };

    fn fmt<W: fmt::Write>(&self, f: &mut fmt::Formatter<W>) -> fmt::Result {
        f.write_str(match self {
            Refusal::Part => "the part is over 7",
            Refusal::Size => "the number of cells is 0 or over 512",
            Refusal::Cell => "the cell is beyond the cells",
            Refusal::Taken => "the cell is swapped, or a part has it",
            Refusal::Full => "16 cells are swapped already",
            Refusal::Mode => "the mode is over 3",
        })
    }
}
