ghost use Rattle.std.specs.Prelude.{◌≡◌, Some};
ghost use Rattle.rig.specs.declared.problem.Problem.TheVariants.{Line, Port, Sheet};
ghost use Rattle.rig.specs.Texts.{error_text, problem_text};

use port::refusal::PortRefusal;
use setup::problem::LineProblem;
use sheet::refusal::Refusal;
use sheet::sheet::Refused;
use std::fmt;

// Why a setup is refused.
#[derive(Clone, Copy)]
pub enum Problem {
    // The line cannot be read.
    Line(LineProblem),
    // The directive stands a second time, and may stand once.
    Repeated,
    // The directive stands before `cells`.
    Early,
    // The access sheet refuses.
    Sheet(Refusal),
    // The ports refuse.
    Port(PortRefusal),
    // An element's cell is beyond the cells.
    Beyond,
    // The text ends without a `kind`.
    NoKind,
    // The text ends without a `cells`.
    NoCells,
}

impl From<LineProblem> for Problem {
    ghost from_gives = { λ reason r. r ≡ Line reason };

    fn from(reason: LineProblem) -> Problem {
        Problem::Line(reason)
    }
}

// The sheet that comes back is dropped.
impl From<Refused> for Problem {
    ghost from_gives = { λ refused r. r ≡ Sheet refused.why };

    fn from(refused: Refused) -> Problem {
        Problem::Sheet(refused.why)
    }
}

impl From<PortRefusal> for Problem {
    ghost from_gives = { λ refusal r. r ≡ Port refusal };

    fn from(refusal: PortRefusal) -> Problem {
        Problem::Port(refusal)
    }
}

// A problem and the line it stands on, counted from 1; the last line where something is missing.
#[derive(Clone, Copy)]
pub struct SetupError {
    pub line: usize,
    pub problem: Problem,
}

// The problem in words; a refusal with its number.
impl fmt::Display for Problem {
    ghost output = { λ p. Some (problem_text p) };

    fn fmt<W: fmt::Write>(&self, f: &mut fmt::Formatter<W>) -> fmt::Result {
        match *self {
            Problem::Line(problem) => write!(f, "{problem}"),
            Problem::Repeated => write!(f, "this directive stands a second time"),
            Problem::Early => write!(f, "`cells` has to stand before this line"),
            Problem::Sheet(why) => write!(f, "refusal {}: {why}", why.number()),
            Problem::Port(why) => write!(f, "refusal {}: {why}", why.number()),
            Problem::Beyond => write!(f, "refusal 20: the cell is beyond the cells"),
            Problem::NoKind => write!(f, "the text ends without a `kind`"),
            Problem::NoCells => write!(f, "the text ends without a `cells`"),
        }
    }
}

// The problem with its line.
impl fmt::Display for SetupError {
    ghost output = { λ e. Some (error_text e) };

    fn fmt<W: fmt::Write>(&self, f: &mut fmt::Formatter<W>) -> fmt::Result {
        write!(f, "line {}: {}", self.line, self.problem)
    }
}
