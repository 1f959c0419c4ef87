// Runs and commands of the kind that a host has, with scratch of their own.
ghost use Rattle.std.specs.Prelude.{◌≡◌, length, MatchResult};
ghost use Rattle.showfile.specs.Opening.{rest};
ghost use Rattle.run.specs.Runs.{answered, requests_of};
ghost use Rattle.driver.specs.Drives.{RunsAll, Untouched, Commands};

use crate::kept_host::KeptHost;
use crate::runs::{command_over, run_over};
use command::log::LogRecord;
use element::element::Element;
use element::head::Head;
use element::level::Level;
use run::refusal::RunRefusal;
use sets::head_set::HeadSet;
use sets::level_set::LevelSet;
use showfile::file::ShowFile;

// A run of the host's kind; where it is refused, nothing is written.
pub(crate) fn run_own(
    host: &mut KeptHost,
    cells: &mut [u32],
    file: ShowFile,
    log: &mut [LogRecord],
) -> Result<usize, RunRefusal>
    ensures answer { result ≡ answered (length (rest file.entry)) (length log.old) 8 4 }
    ensures ends { MatchResult result
        (λ n. RunsAll host.old host.new cells.old cells.new (requests_of file.entry 8 4) log.old log.new)
        (λ why. Untouched host.old host.new cells.old cells.new log.old log.new) }
{
    let layers = host.layers;
    let kept = &mut host.kept;
    // The kind is a flag, since C keeps the host. Each arm makes its own scratch: an array of any kind of element is not known to fit memory,
    // and only one that does is lent as a slice.
    if host.heads {
        let set = HeadSet::new();
        let mut args = [Head::null(); 8];
        let mut results = [Head::null(); 4];
        run_over(kept, layers, cells, set, file, log, &mut args, &mut results)
    } else {
        let set = LevelSet::new();
        let mut args = [Level::null(); 8];
        let mut results = [Level::null(); 4];
        run_over(kept, layers, cells, set, file, log, &mut args, &mut results)
    }
}

// One command of the host's kind.
pub(crate) fn command_own(
    host: &mut KeptHost,
    cells: &mut [u32],
    place: u32,
    bytes: &[u8],
) -> LogRecord
    ensures { Commands host.old host.new cells.old cells.new place bytes.now result }
{
    let kept = &mut host.kept;
    // As in `run_own`.
    if host.heads {
        let set = HeadSet::new();
        let mut args = [Head::null(); 8];
        let mut results = [Head::null(); 4];
        command_over(kept, cells, set, place, bytes, &mut args, &mut results)
    } else {
        let set = LevelSet::new();
        let mut args = [Level::null(); 8];
        let mut results = [Level::null(); 4];
        command_over(kept, cells, set, place, bytes, &mut args, &mut results)
    }
}
