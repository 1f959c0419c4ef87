ghost use Rattle.std.specs.Prelude.{◌≡◌, Some};
ghost use Rattle.showfile.specs.Refusals.{number_of, text_of};

use std::fmt;

// Why a file is not opened.
#[derive(Clone, Copy, PartialEq, Eq, Debug)]
pub enum FileRefusal {
    // Its length is 0, over 65,536 bytes, or no multiple of 32.
    Length,
    // The head holds something beside its next index.
    Head,
    // The next index of this record is no record's.
    Outside(u16),
    // The chain never reaches zero.
    Endless,
}

impl FileRefusal {
    // The refusal's number in the rules; a method, since `u8::from(why)` would not say what the number is.
    pub fn number(self) -> u8
        ensures { result ≡ number_of self }
    {
        match self {
            FileRefusal::Length => 1,
            FileRefusal::Head => 2,
            FileRefusal::Outside(_) => 3,
            FileRefusal::Endless => 4,
        }
    }
}

// The refusal in words, with its number and the record at fault.
impl fmt::Display for FileRefusal {
    ghost output = { λ r. Some (text_of r) };

    fn fmt<W: fmt::Write>(&self, f: &mut fmt::Formatter<W>) -> fmt::Result {
        match *self {
            FileRefusal::Length => write!(
                f,
                "refusal 1: the length is 0, over 65536 bytes or no multiple of 32"
            ),
            FileRefusal::Head => write!(f, "refusal 2: the head holds more than a next index"),
            FileRefusal::Outside(r) => write!(f, "refusal 3: record {r} leads outside the file"),
            FileRefusal::Endless => write!(f, "refusal 4: the chain never reaches zero"),
        }
    }
}
