// A record of a show file, in words.
ghost use Rattle.std.specs.Prelude.{◌≡◌, Some, slice_get};
ghost use Rattle.report.specs.Listings.{part_text, listed_text};

use crate::asks::Asks;
use command::decode::decode;
use std::fmt;

// A part, if a record is long enough to name one.
#[derive(Clone, Copy)]
struct Part(Option<u8>);

// The part that byte 2 of a record names.
fn part_of(bytes: &[u8]) -> Part
    ensures { result.0 ≡ slice_get bytes.now 2 }
{
    Part(bytes.get(2).copied())
}

impl fmt::Display for Part {
    ghost output = { λ p. Some (part_text p.0) };

    fn fmt<W: fmt::Write>(&self, f: &mut fmt::Formatter<W>) -> fmt::Result {
        match self.0 {
            Some(part) => write!(f, "  part {part:<3}"),
            None => Ok(()),
        }
    }
}

// A record of a show file, by its index.
#[derive(Drop)]
pub struct Listed<'a> {
    pub place: u16,
    pub bytes: &'a [u8],
}

// The index, the part, and what is asked or why it is refused.
impl<'a> fmt::Display for Listed<'a> {
    ghost output = { λ l. Some (listed_text l.place l.bytes.now) };

    fn fmt<W: fmt::Write>(&self, f: &mut fmt::Formatter<W>) -> fmt::Result {
        let place = self.place;
        let part = part_of(self.bytes);
        match decode(self.bytes) {
            Ok(command) => {
                let asks = Asks(command);
                write!(f, "{place:>5}{part}  {asks}")
            }
            Err(why) => write!(f, "{place:>5}{part}  {why}"),
        }
    }
}
