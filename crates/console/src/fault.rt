// Why the program ends with status 1.
ghost use Rattle.std.specs.Prelude.{◌≡◌};
ghost use Rattle.console.specs.declared.fault.Fault.TheVariants.{Memory, Output};
ghost use Rattle.console.specs.Faults.{fault_text};

use rig::problem::SetupError;
use showfile::refusal::FileRefusal;
use std::alloc::{AllocError, AllocFailed};
use std::{fmt, io};
use wording::reason::reason;

#[derive(Drop)]
pub enum Fault {
    // The words of the command line are no call of the program.
    Usage,
    // The word after --solo is no part.
    Part,
    // There is no memory.
    Memory,
    // The output cannot be written.
    Output(io::Error),
    // A file cannot be read or written.
    File { path: String, error: io::Error },
    // The setup is refused, at a line.
    Setup { path: String, error: SetupError },
    // A show file is not opened.
    Show { path: String, why: FileRefusal },
    // A run of a show is refused, by this number; the refusals of a host and of a run both come here, so it is no enum.
    Run { path: String, refusal: u8 },
}

// The library tells of no memory by two errors: this one, and one that holds what was not stored.
impl From<AllocError> for Fault {
    ghost from_gives = { λ _ r. r ≡ Memory };

    fn from(_e: AllocError) -> Fault {
        Fault::Memory
    }
}

impl<T: Drop> From<AllocFailed<T>> for Fault {
    ghost from_gives = { λ _ r. r ≡ Memory };

    fn from(_e: AllocFailed<T>) -> Fault {
        Fault::Memory
    }
}

impl From<io::Error> for Fault {
    ghost from_gives = { λ e r. r ≡ Output e };

    fn from(e: io::Error) -> Fault {
        Fault::Output(e)
    }
}

// The fault in words: the file, the line or the number, and the reason.
impl fmt::Display for Fault {
    ghost output = { fault_text };

    fn fmt<W: fmt::Write>(&self, f: &mut fmt::Formatter<W>) -> fmt::Result {
        match self {
            Fault::Usage => {
                f.write_str(
                    "usage: playback [--log OUT] [--solo PART] SETUP SHOW.., or playback SHOW",
                )
            }
            Fault::Part => f.write_str("--solo wants a part, 0 to 7"),
            Fault::Memory => f.write_str("out of memory"),
            Fault::Output(error) => write!(f, "cannot write: {error}"),
            Fault::File { path, error } => write!(f, "{path}: {error}"),
            Fault::Setup { path, error } => write!(f, "{path}: {error}"),
            Fault::Show { path, why } => write!(f, "{path}: {why}"),
            Fault::Run { path, refusal } => {
                let told = reason(*refusal);
                write!(f, "{path}: refusal {refusal}: {told}")
            }
        }
    }
}
