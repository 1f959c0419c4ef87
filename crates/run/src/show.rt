ghost use Rattle.std.specs.Prelude.{◌≡◌, ℕ, ◌≤◌, cond, List, length, nat_lt};
ghost use Rattle.showfile.specs.Opening.{rest};
ghost use Rattle.host.specs.Commands.{Commanded};
ghost use Rattle.host.specs.Parts.{left_null};
ghost use Rattle.run.specs.Runs.{request_with, requests_of, answered, done_of, some, Plays, Ran, Left};

use crate::refusal::RunRefusal;
use command::log::LogRecord;
use element::clear::clear;
use element::element::Element;
use host::host::Host;
use instruction::set::InstructionSet;
use showfile::file::ShowFile;
use store::store::Store;

// One command, with the first eight and four places of the scratch, which is enough: so a long scratch costs no more. They are no arrays: eight
// elements of any kind at all are not known to fit the memory.
fn do_one<S: Store, I: InstructionSet<S::Item>>(
    host: &mut Host<S, I>,
    place: u16,
    bytes: &[u8],
    args: &mut [S::Item],
    results: &mut [S::Item],
) -> LogRecord
    requires args { 8 ≤ length args.old }
    requires results { 4 ≤ length results.old }
    ensures commanded { Commanded S.Store S.Item.Element I.InstructionSet host.old host.new (request_with place bytes.now 8 4) result }
    ensures lender { S.Store.lender host.new.store ≡ S.Store.lender host.old.store }
{
    host.command(place as u32, bytes, &mut args[0..8], &mut results[0..4])
}

// Each command of the chain, in chain order. The log is written by its index: of a list that was walked by `iter_mut` and `zip` the elements are
// not known afterwards.
fn play<S: Store, I: InstructionSet<S::Item>>(
    host: &mut Host<S, I>,
    file: ShowFile,
    log: &mut [LogRecord],
    args: &mut [S::Item],
    results: &mut [S::Item],
)
    requires args { 8 ≤ length args.old }
    requires results { 4 ≤ length results.old }
    requires log { length (rest file) ≤ length log.old }
    ensures played { Plays S.Store S.Item.Element I.InstructionSet host.old host.new (requests_of file.entry (length args.old) (length results.old)) log.old log.new }
    ensures lender { S.Store.lender host.new.store ≡ S.Store.lender host.old.store }
    ensures args { Left (length (rest file.entry)) args.old args.new }
    ensures results { Left (length (rest file.entry)) results.old results.new }
{
    for (n, (place, bytes)) in file.enumerate() {
        log[n] = do_one(host, place, bytes, args, results);
    }
}

// Sets every place to null where something was done.
fn clear_after<E: Element>(count: usize, places: &mut [E])
    ensures { places.new ≡ left_null (nat_lt 0 count) E.blank places.old }
{
    if count > 0 {
        clear(places);
    }
}

// Does each command of an opened show file, in chain order, and logs it; or refuses, and then leaves everything as it was.
// The lists stay apart, since callers lend them so.
pub fn run<S: Store, I: InstructionSet<S::Item>>(
    host: &mut Host<S, I>,
    file: ShowFile,
    log: &mut [LogRecord],
    args: &mut [S::Item],
    results: &mut [S::Item],
) -> Result<usize, RunRefusal>
    ensures answer { result ≡ answered (length (rest file.entry)) (length log.old) (length args.old) (length results.old) }
    ensures ran { Ran S.Store S.Item.Element I.InstructionSet host.old host.new (done_of result (requests_of file.entry (length args.old) (length results.old))) log.old log.new }
    ensures lender { S.Store.lender host.new.store ≡ S.Store.lender host.old.store }
    ensures args { args.new ≡ left_null (some (done_of result (rest file.entry))) S.Item.Element.blank args.old }
    ensures results { results.new ≡ left_null (some (done_of result (rest file.entry))) S.Item.Element.blank results.old }
{
    if args.len() < 8 || results.len() < 4 {
        return Err(RunRefusal::Scratch);
    }
    let count = file.remaining();
    if log.len() < count {
        return Err(RunRefusal::Log);
    }
    play(host, file, log, args, results);
    clear_after(count, args);
    clear_after(count, results);
    Ok(count)
}
