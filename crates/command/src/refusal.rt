ghost use Rattle.std.specs.Prelude.{◌≡◌};
ghost use Rattle.command.specs.declared.refusal.Refusal.TheVariants.{Malformed};
ghost use Rattle.command.specs.Answers.{refusal_number, refusal_detail};

use crate::malformed::Malformed;

// Why a command is refused.
#[derive(Clone, Copy, PartialEq, Eq, Debug)]
pub enum Refusal {
    // The bytes are no command.
    Malformed(Malformed),
    // A lent scratch list is too short.
    Scratch,
    // The host's store and sheet differ in size.
    Size,
    // There is no such part.
    Part,
    // The turn that is needed is not there.
    Turn,
    // There is no such port, or the part may not use it so.
    Port,
    // A cell is beyond the sheet or without the right: arguments are counted from 0, results from 8.
    Cell(u8),
    // The instruction set faults, with this number. A number, since a command does not know the faults of sets.
    Set(u8),
}

impl Refusal {
    // The refusal's number in the rules; a method, since `u8::from(why)` would not say what the number is.
    pub fn number(self) -> u8
        ensures { result ≡ refusal_number self }
    {
        match self {
            Refusal::Malformed(why) => why.number(),
            Refusal::Scratch => 6,
            Refusal::Size => 19,
            Refusal::Part => 9,
            Refusal::Turn => 10,
            Refusal::Port => 11,
            Refusal::Cell(_) => 12,
            Refusal::Set(_) => 13,
        }
    }

    // Its detail: the byte, the cell's place or the set fault that it is about, or 0.
    pub fn detail(self) -> u8
        ensures { result ≡ refusal_detail self }
    {
        match self {
            Refusal::Malformed(why) => why.detail(),
            Refusal::Part => 2,
            Refusal::Port => 5,
            Refusal::Cell(at) => at,
            Refusal::Set(fault) => fault,
            Refusal::Scratch | Refusal::Size | Refusal::Turn => 0,
        }
    }
}

impl From<Malformed> for Refusal {
    ghost from_gives = { λ why r. r ≡ Malformed why };

    fn from(why: Malformed) -> Refusal {
        Refusal::Malformed(why)
    }
}
