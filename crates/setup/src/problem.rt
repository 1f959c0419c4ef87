ghost use Rattle.std.specs.Prelude.{Some};
ghost use Rattle.setup.specs.Problems.{problem_text};

use std::fmt;

// Why a line of a setup text cannot be read.
#[derive(Clone, Copy)]
pub enum LineProblem {
    // The first word is no directive's name.
    UnknownDirective,
    // The directive wants another word.
    MissingWord,
    // A word follows that the directive does not want.
    ExtraWord,
    // The word is no number.
    NotNumber,
    // The number is over this one.
    TooLarge(u32),
    // The kind is neither level nor head.
    UnknownKind,
    // The store is neither flat nor packed.
    UnknownStore,
}

// The problem in words.
impl fmt::Display for LineProblem {
    ghost output = { λ p. Some (problem_text p) };

    fn fmt<W: fmt::Write>(&self, f: &mut fmt::Formatter<W>) -> fmt::Result {
        match *self {
            LineProblem::UnknownDirective => write!(f, "no such directive"),
            LineProblem::MissingWord => write!(f, "a word is missing"),
            LineProblem::ExtraWord => write!(f, "a word too many"),
            LineProblem::NotNumber => write!(f, "not a number"),
            LineProblem::TooLarge(most) => write!(f, "the number is over {most}"),
            LineProblem::UnknownKind => write!(f, "the kind is neither level nor head"),
            LineProblem::UnknownStore => write!(f, "the store is neither flat nor packed"),
        }
    }
}
