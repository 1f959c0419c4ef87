ghost use Rattle.std.specs.Prelude.{◌≡◌};
ghost use Rattle.host.specs.Parts.{request_of};
ghost use Rattle.pile.specs.Going.{Did};

use command::log::LogRecord;
use element::element::Element;
use host::host::{Host, Kept};
use instruction::set::InstructionSet;
use store::store::Store;

// One command on the host that goes on over this store, which is given back; `told` is the command's record.
// It is lent, and a closure would not serve, for the reasons told at runs.
fn command_bare<S: Store, I: InstructionSet<S::Item> + Drop>(
    store: S,
    set: I,
    kept: &mut Kept,
    place: u32,
    bytes: &[u8],
    args: &mut [S::Item],
    results: &mut [S::Item],
    told: &mut LogRecord,
) -> S
    ensures { Did S.Store S.Item.Element I.InstructionSet kept.old kept.new store result set (request_of place bytes.now args.old results.old) args.old args.new results.old results.new told.new }
{
    let mut host = Host::resume(store, set, *kept);
    *told = host.command(place, bytes, args, results);
    *kept = host.keep();
    host.into_store()
}

// One command on a kept host over a lent store. Layers would change nothing: they last for a run.
pub fn command_kept<S: Store, I: InstructionSet<S::Item> + Drop>(
    store: &mut S,
    set: I,
    kept: &mut Kept,
    place: u32,
    bytes: &[u8],
    args: &mut [S::Item],
    results: &mut [S::Item],
) -> LogRecord
    ensures { Did S.Store S.Item.Element I.InstructionSet kept.old kept.new store.old store.new set (request_of place bytes.now args.old results.old) args.old args.new results.old results.new result }
{
    let mut told = LogRecord::new(place, 0, 0, Ok(None));
    let _store = command_bare(store, set, kept, place, bytes, args, results, &mut told);
    told
}
