ghost use Rattle.pile.specs.Going.{Played};

use command::log::LogRecord;
use element::element::Element;
use host::host::{Host, Kept};
use instruction::set::InstructionSet;
use layer::held::Held;
use run::refusal::RunRefusal;
use run::show::run;
use showfile::file::ShowFile;
use store::store::Store;

// A run on the host that goes on over this store, which is given back; `ended` is how the run ended.
// `ended` is lent, and not given back beside the store: in a pair it stays open that a lent store is the one that was lent.
// The lists stay apart: in a struct they are lent once more, and the search does not find that they are the caller's. Of what a closure writes
// nothing is known after its call.
fn run_bare<S: Store, I: InstructionSet<S::Item> + Drop>(
    store: S,
    set: I,
    kept: &mut Kept,
    file: ShowFile,
    log: &mut [LogRecord],
    args: &mut [S::Item],
    results: &mut [S::Item],
    ended: &mut Result<usize, RunRefusal>,
) -> S
    ensures { Played S.Store S.Item.Element I.InstructionSet kept.old kept.new store result set file.entry log.old log.new args.old args.new results.old results.new ended.new }
{
    let mut host = Host::resume(store, set, *kept);
    *ended = run(&mut host, file, log, args, results);
    *kept = host.keep();
    host.into_store()
}

// The same through one layer.
fn run_held<S: Store, I: InstructionSet<S::Item> + Drop>(
    store: S,
    set: I,
    kept: &mut Kept,
    file: ShowFile,
    log: &mut [LogRecord],
    args: &mut [S::Item],
    results: &mut [S::Item],
    ended: &mut Result<usize, RunRefusal>,
) -> S
    ensures { Played S.Store S.Item.Element I.InstructionSet kept.old kept.new store result set file.entry log.old log.new args.old args.new results.old results.new ended.new }
{
    let layer = Held::new(store);
    let layer = run_bare(layer, set, kept, file, log, args, results, ended);
    layer.close()
}

// The same through so many layers, at most two. Each layer makes another type of store, so there is no recursion.
fn run_piled<S: Store, I: InstructionSet<S::Item> + Drop>(
    layers: u8,
    store: S,
    set: I,
    kept: &mut Kept,
    file: ShowFile,
    log: &mut [LogRecord],
    args: &mut [S::Item],
    results: &mut [S::Item],
    ended: &mut Result<usize, RunRefusal>,
) -> S
    ensures { Played S.Store S.Item.Element I.InstructionSet kept.old kept.new store result set file.entry log.old log.new args.old args.new results.old results.new ended.new }
{
    match layers {
        0 => run_bare(store, set, kept, file, log, args, results, ended),
        1 => run_held(store, set, kept, file, log, args, results, ended),
        _ => {
            let layer = Held::new(store);
            let layer = run_held(layer, set, kept, file, log, args, results, ended);
            layer.close()
        }
    }
}

// A run on a kept host over a lent store, through so many layers, at most two.
pub fn run_kept<S: Store, I: InstructionSet<S::Item> + Drop>(
    layers: u8,
    store: &mut S,
    set: I,
    kept: &mut Kept,
    file: ShowFile,
    log: &mut [LogRecord],
    args: &mut [S::Item],
    results: &mut [S::Item],
) -> Result<usize, RunRefusal>
    ensures { Played S.Store S.Item.Element I.InstructionSet kept.old kept.new store.old store.new set file.entry log.old log.new args.old args.new results.old results.new result }
{
    let mut ended = Ok(0);
    let _store = run_piled(
        layers, store, set, kept, file, log, args, results, &mut ended,
    );
    ended
}
