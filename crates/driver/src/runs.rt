// Runs and commands of any kind, over packed words.
ghost use Rattle.std.specs.Prelude.{◌≡◌, length};
ghost use Rattle.showfile.specs.Opening.{rest};
ghost use Rattle.host.specs.Parts.{request_of};
ghost use Rattle.run.specs.Runs.{answered};
ghost use Rattle.driver.specs.Drives.{PlayedOn, DidOn, Ends};

use command::log::LogRecord;
use element::element::Element;
use host::host::Kept;
use instruction::set::InstructionSet;
use pile::show::run_kept;
use pile::single::command_kept;
use run::refusal::RunRefusal;
use showfile::file::ShowFile;
use store::packed::Packed;

// A run on a store over lent words, with lent scratch.
fn run_in<E: Element, I: InstructionSet<E> + Drop>(
    kept: &mut Kept,
    layers: u8,
    store: &mut Packed<'_, E>,
    set: I,
    file: ShowFile,
    log: &mut [LogRecord],
    args: &mut [E],
    results: &mut [E],
) -> Result<usize, RunRefusal>
    ensures played { PlayedOn E.Element I.InstructionSet set kept.old kept.new store.old.words.now store.new.words.now file.entry log.old log.new args.old args.new results.old results.new result }
    ensures lender { store.new.words.ghost_name ≡ store.old.words.ghost_name }
{
    run_kept(layers, store, set, kept, file, log, args, results)
}

// A run over words, with lent scratch; where it is refused, nothing is written.
// The lists stay apart: in a struct they would be lent once more.
pub(crate) fn run_over<E: Element, I: InstructionSet<E> + Drop>(
    kept: &mut Kept,
    layers: u8,
    cells: &mut [u32],
    set: I,
    file: ShowFile,
    log: &mut [LogRecord],
    args: &mut [E],
    results: &mut [E],
) -> Result<usize, RunRefusal>
    ensures answer { result ≡ answered (length (rest file.entry)) (length log.old) (length args.old) (length results.old) }
    ensures ends { Ends E.Element I.InstructionSet set kept.old kept.new cells.old cells.new file.entry log.old log.new args.old args.new results.old results.new result }
{
    if args.len() < 8 || results.len() < 4 {
        return Err(RunRefusal::Scratch);
    }
    if log.len() < file.remaining() {
        return Err(RunRefusal::Log);
    }
    let mut store = Packed::<E>::new(cells);
    run_in(kept, layers, &mut store, set, file, log, args, results)
}

// One command on a store over lent words.
fn command_in<E: Element, I: InstructionSet<E> + Drop>(
    kept: &mut Kept,
    store: &mut Packed<'_, E>,
    set: I,
    place: u32,
    bytes: &[u8],
    args: &mut [E],
    results: &mut [E],
) -> LogRecord
    ensures did { DidOn E.Element I.InstructionSet set kept.old kept.new store.old.words.now store.new.words.now (request_of place bytes.now args.old results.old) args.old args.new results.old results.new result }
    ensures lender { store.new.words.ghost_name ≡ store.old.words.ghost_name }
{
    command_kept(store, set, kept, place, bytes, args, results)
}

// One command over words.
pub(crate) fn command_over<E: Element, I: InstructionSet<E> + Drop>(
    kept: &mut Kept,
    cells: &mut [u32],
    set: I,
    place: u32,
    bytes: &[u8],
    args: &mut [E],
    results: &mut [E],
) -> LogRecord
    ensures { DidOn E.Element I.InstructionSet set kept.old kept.new cells.old cells.new (request_of place bytes.now args.old results.old) args.old args.new results.old results.new result }
{
    let mut store = Packed::<E>::new(cells);
    command_in(kept, &mut store, set, place, bytes, args, results)
}
