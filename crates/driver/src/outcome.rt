ghost use Rattle.std.specs.Prelude.{◌≡◌, ◌^◌, ◌<◌};
ghost use Rattle.run.specs.Refusals.{number_of};
ghost use Rattle.driver.specs.Outcomes.{commands_of, refused_by, unopened_by, ended_as};

use run::refusal::RunRefusal;
use showfile::refusal::FileRefusal;

// The refusal of a call for levels on a host of heads.
pub const WRONG_KIND: u32 = 103;

// What opening or running a show gave: a refusal or 0, the record that refusal 3 names or 0, and how many commands there are, 0 with a
// refusal. It is C's, so a refusal is a number here.
#[repr(C)]
#[derive(Clone, Copy, PartialEq, Eq, Debug)]
pub struct Outcome {
    pub refusal: u32,
    pub at: u32,
    pub commands: u32,
}

impl Outcome {
    // So many commands.
    pub(crate) fn of(commands: usize) -> Outcome
        requires { commands < 2 ^ 16 }
        ensures { result ≡ commands_of commands }
    {
        Outcome {
            refusal: 0,
            at: 0,
            commands: commands as u32,
        }
    }

    // A refusal by its number.
    pub(crate) fn refused(refusal: u32) -> Outcome
        ensures { result ≡ refused_by refusal }
    {
        Outcome {
            refusal,
            at: 0,
            commands: 0,
        }
    }

    // How a run of so many commands ended. No `From`, which could not ask that their number fits.
    pub(crate) fn ended(commands: usize, ended: Result<usize, RunRefusal>) -> Outcome
        requires { commands < 2 ^ 16 }
        ensures { result ≡ ended_as commands ended }
    {
        match ended {
            Ok(_) => Outcome::of(commands),
            Err(why) => Outcome::from(why),
        }
    }
}

// A file that is not opened.
impl From<FileRefusal> for Outcome {
    ghost from_gives = { λ why o. o ≡ unopened_by why };

    fn from(why: FileRefusal) -> Outcome {
        let at = match why {
            FileRefusal::Outside(record) => record as u32,
            _ => 0,
        };
        Outcome {
            at,
            ..Outcome::refused(why.number() as u32)
        }
    }
}

// A run that is refused.
impl From<RunRefusal> for Outcome {
    ghost from_gives = { λ why o. o ≡ refused_by (number_of why) };

    fn from(why: RunRefusal) -> Outcome {
        Outcome::refused(why.number() as u32)
    }
}
