ghost use Rattle.std.specs.Prelude.{◌≡◌, Some};
ghost use Rattle.command.specs.declared.malformed.Malformed.TheVariants.{Kind};
ghost use Rattle.command.specs.Commands.{number_of, detail_of, malformed_text};

use crate::kind::UnknownKind;
use std::fmt;

// Why bytes are no command.
#[derive(Clone, Copy, PartialEq, Eq, Debug)]
pub enum Malformed {
    // They are not 32.
    Length,
    // The kind is none of restore, save, instruct, send and receive.
    Kind,
    // The shape is broken, and this is the lowest byte at fault.
    Shape(u8),
}

impl Malformed {
    // The refusal's number in the rules; a method, since `u8::from(why)` would not say what the number is.
    pub fn number(self) -> u8
        ensures { result ≡ number_of self }
    {
        match self {
            Malformed::Length => 1,
            Malformed::Kind => 7,
            Malformed::Shape(_) => 8,
        }
    }

    // Its detail: the byte at fault.
    pub fn detail(self) -> u8
        ensures { result ≡ detail_of self }
    {
        match self {
            Malformed::Length => 0,
            Malformed::Kind => 3,
            Malformed::Shape(at) => at,
        }
    }
}

impl From<UnknownKind> for Malformed {
    ghost from_gives = { λ _ m. m ≡ Kind };

    fn from(_unknown: UnknownKind) -> Malformed {
        Malformed::Kind
    }
}

// The refusal in words, with its number and the byte at fault.
impl fmt::Display for Malformed {
    ghost output = { λ m. Some (malformed_text m) };

    fn fmt<W: fmt::Write>(&self, f: &mut fmt::Formatter<W>) -> fmt::Result {
        match *self {
            Malformed::Length => f.write_str("refusal 1: not 32 bytes"),
            Malformed::Kind => f.write_str("refusal 7 at byte 3: no such kind"),
            Malformed::Shape(at) => write!(f, "refusal 8 at byte {at}: the shape is broken"),
        }
    }
}
