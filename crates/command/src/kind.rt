ghost use Rattle.std.specs.Prelude.{◌≡◌, Some};
ghost use Rattle.command.specs.Kinds.{kind_number, kind_text, Named};
ghost use Rattle.command.specs.Shape.{arg_limit, result_limit};

use std::fmt;

// The kinds of command.
#[derive(Clone, Copy, PartialEq, Eq, Debug)]
pub enum Kind {
    Restore = 1,
    Save = 2,
    Instruct = 3,
    Send = 4,
    Receive = 5,
}

// A byte that names no kind.
#[derive(Clone, Copy, PartialEq, Eq, Debug)]
pub struct UnknownKind(pub u8);

// The kind that a record's kind byte names.
impl TryFrom<u8> for Kind {
    type Error = UnknownKind;

    ghost try_from_gives = { Named };

    fn try_from(byte: u8) -> Result<Kind, UnknownKind> {
        match byte {
            1 => Ok(Kind::Restore),
            2 => Ok(Kind::Save),
            3 => Ok(Kind::Instruct),
            4 => Ok(Kind::Send),
            5 => Ok(Kind::Receive),
            _ => Err(UnknownKind(byte)),
        }
    }
}

impl Kind {
    // The kind's name.
    pub fn name(self) -> &'static str
        ensures { result.now ≡ kind_text self }
    {
        match self {
            Kind::Restore => "restore",
            Kind::Save => "save",
            Kind::Instruct => "instruct",
            Kind::Send => "send",
            Kind::Receive => "receive",
        }
    }

    // How many arguments a command of this kind may have at most.
    pub fn arg_limit(self) -> u8
        ensures { result ≡ arg_limit (kind_number self) }
    {
        match self {
            Kind::Instruct => 8,
            Kind::Send => 4,
            _ => 0,
        }
    }

    // How many results a command of this kind may have at most.
    pub fn result_limit(self) -> u8
        ensures { result ≡ result_limit (kind_number self) }
    {
        match self {
            Kind::Instruct | Kind::Receive => 4,
            _ => 0,
        }
    }
}

impl fmt::Display for Kind {
    ghost output = { λ k. Some (kind_text k) };

    fn fmt<W: fmt::Write>(&self, f: &mut fmt::Formatter<W>) -> fmt::Result {
        f.write_str(self.name())
    }
}
