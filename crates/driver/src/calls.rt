// The calls that a driver makes.
ghost use Rattle.driver.specs.Drives.{Drives, DrivesLent, Opens, Commands, MadeKept, MakesHost};

use crate::kept_host::KeptHost;
use crate::outcome::{Outcome, WRONG_KIND};
use crate::own::{command_own, run_own};
use crate::rig::Rig;
use crate::runs::run_over;
use command::log::LogRecord;
use command::refusal::Refusal;
use element::head::Head;
use element::level::Level;
use host::host::Kept;
use sets::head_set::HeadSet;
use sets::level_set::LevelSet;
use showfile::file::ShowFile;

// What a host of this rig keeps at its making.
fn kept_of(rig: &Rig) -> Kept
    ensures { MadeKept rig.now result }
{
    // The kind is a flag, since C keeps the rig.
    if rig.heads {
        Kept::new::<Head, HeadSet>(rig.sheet, rig.ports)
    } else {
        Kept::new::<Level, LevelSet>(rig.sheet, rig.ports)
    }
}

// A host of this rig over these cells, packed in words 2n and 2n + 1; refusal 19, and a host is still given.
// C reads the refusal, so it is a number.
#[unsafe(no_mangle)]
pub extern "C" fn nuvkerd_make(rig: &Rig, cells: &[u32], refusal: &mut u32) -> KeptHost
    ensures { MakesHost rig.now cells.now result refusal.new }
{
    *refusal = if cells.len() / 2 == rig.sheet.size() {
        0
    } else {
        Refusal::Size.number() as u32
    };
    KeptHost {
        kept: kept_of(rig),
        heads: rig.heads,
        layers: rig.layers,
    }
}

// Opens a show file: refusals 1 to 4, or how many commands its chain has.
#[unsafe(no_mangle)]
pub extern "C" fn nuvkerd_open(show: &[u8]) -> Outcome
    ensures { Opens show.now result }
{
    match ShowFile::open(show) {
        Ok(file) => Outcome::of(file.remaining()),
        Err(why) => Outcome::from(why),
    }
}

// Runs a show: refusals 1 to 5, or one log record a command.
#[unsafe(no_mangle)]
pub extern "C" fn nuvkerd_run(
    host: &mut KeptHost,
    cells: &mut [u32],
    show: &[u8],
    log: &mut [LogRecord],
) -> Outcome
    ensures { Drives host.old host.new cells.old cells.new show.now log.old log.new result }
{
    match ShowFile::open(show) {
        Ok(file) => Outcome::ended(file.remaining(), run_own(host, cells, file, log)),
        Err(why) => Outcome::from(why),
    }
}

// Runs a show of levels with lent scratch, one byte an element: refusals 1 to 4, 103, 6, 5, or one log record a command.
#[unsafe(no_mangle)]
pub extern "C" fn nuvkerd_run_levels(
    host: &mut KeptHost,
    cells: &mut [u32],
    show: &[u8],
    log: &mut [LogRecord],
    args: &mut [Level],
    results: &mut [Level],
) -> Outcome
    ensures { DrivesLent host.old host.new cells.old cells.new show.now log.old log.new args.old args.new results.old results.new result }
{
    match ShowFile::open(show) {
        Ok(_) if host.heads => Outcome::refused(WRONG_KIND),
        Ok(file) => {
            let commands = file.remaining();
            let layers = host.layers;
            let ended = run_over(
                &mut host.kept,
                layers,
                cells,
                LevelSet::new(),
                file,
                log,
                args,
                results,
            );
            Outcome::ended(commands, ended)
        }
        Err(why) => Outcome::from(why),
    }
}

// One command: any bytes, and a place to be logged under.
#[unsafe(no_mangle)]
pub extern "C" fn nuvkerd_command(
    host: &mut KeptHost,
    cells: &mut [u32],
    place: u32,
    bytes: &[u8],
) -> LogRecord
    ensures { Commands host.old host.new cells.old cells.new place bytes.now result }
{
    command_own(host, cells, place, bytes)
}
