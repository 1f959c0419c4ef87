ghost use Rattle.std.specs.Prelude.{◌≡◌};
ghost use Rattle.stage.specs.declared.fault.StageFault.TheVariants.{Memory};

use command::refusal::Refusal;
use run::refusal::RunRefusal;
use showfile::refusal::FileRefusal;
use std::alloc::{AllocError, AllocFailed};

// Why the shows are not played to their end.
#[derive(Clone, Copy)]
pub enum StageFault {
    // There is no memory.
    Memory,
    // The host is not whole.
    Host(Refusal),
    // A show file, by its number from 0, is not opened.
    Show { show: usize, why: FileRefusal },
    // The run of a show is refused.
    Run { show: usize, why: RunRefusal },
}

// The library tells of no memory by two errors: this one, and one that holds what was not stored.
impl From<AllocError> for StageFault {
    ghost from_gives = { λ _ r. r ≡ Memory };

    fn from(_e: AllocError) -> StageFault {
        StageFault::Memory
    }
}

impl<T: Drop> From<AllocFailed<T>> for StageFault {
    ghost from_gives = { λ _ r. r ≡ Memory };

    fn from(_e: AllocFailed<T>) -> StageFault {
        StageFault::Memory
    }
}
