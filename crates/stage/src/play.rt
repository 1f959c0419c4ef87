// The one generic run: it makes the host, plays the shows in order on it, and gives the store back.
ghost use Rattle.std.specs.Prelude.{◌≡◌, length, IfOk, vec_len};
ghost use Rattle.showfile.specs.Opening.{rest};

use crate::fault::StageFault;
use crate::memory::nulls;
use crate::session::{Session, Tally};
use command::log::LogRecord;
use element::element::Element;
use host::host::{Host, Made};
use instruction::set::InstructionSet;
use layer::held::Held;
use part::set::Mask;
use port::ports::Ports;
use run::show::run;
use sheet::sheet::Sheet;
use showfile::file::ShowFile;
use solo::left::is_left;
use solo::logs::same;
use std::alloc::Global;
use store::store::Store;

// What is played and on what host, but for its store. The session stands apart: the checker takes no `&mut` beside a set of any type.
#[derive(Drop)]
pub(crate) struct Play<'a, I> {
    pub heap: Global,
    pub set: I,
    pub sheet: Sheet,
    pub ports: Ports,
    pub shows: &'a [Vec<u8>],
}

// A store that was played on, and how that ended.
pub(crate) struct Played<S> {
    pub store: S,
    pub ended: Result<(), StageFault>,
}

// The log of a whole show, one record a command.
fn play_show<S: Store, I: InstructionSet<S::Item>>(
    heap: Global,
    host: &mut Host<S, I>,
    show: usize,
    file: ShowFile,
) -> Result<Vec<LogRecord>, StageFault>
    ensures { IfOk result (λ log. vec_len log ≡ length (rest file.entry)) }
{
    let mut args = nulls::<S::Item>(heap, 8)?;
    let mut results = nulls::<S::Item>(heap, 4)?;
    let blank = LogRecord::new(0, 0, 0, Ok(None));
    let mut log = Vec::from_elem(heap, blank, file.remaining())?;
    run(
        host,
        file,
        log.as_mut_slice(),
        args.as_mut_slice(),
        results.as_mut_slice(),
    )
    .map_err(|why| StageFault::Run { show, why })?;
    Ok(log)
}

// Plays what a show leaves for the parts of a set, where `first` is its log, and counts it in the tally.
fn play_left<S: Store, I: InstructionSet<S::Item>>(
    heap: Global,
    host: &mut Host<S, I>,
    file: ShowFile,
    set: Mask,
    first: &[LogRecord],
    tally: &mut Tally,
) -> Result<(), StageFault> {
    let mut args = nulls::<S::Item>(heap, 8)?;
    let mut results = nulls::<S::Item>(heap, 4)?;
    for ((place, bytes), before) in file.zip(first) {
        if is_left(set, bytes, before.refusal) {
            let again = host.command(
                place as u32,
                bytes,
                args.as_mut_slice(),
                results.as_mut_slice(),
            );
            tally.left = tally.left.saturating_add(1);
            if same(before, &again) {
                tally.alike = tally.alike.saturating_add(1);
            }
        }
    }
    Ok(())
}

// Opens the shows in their order and does this with each; the first fault ends it.
fn each_show<F: FnMut(usize, ShowFile) -> Result<(), StageFault>>(
    shows: &[Vec<u8>],
    mut step: F,
) -> Result<(), StageFault>
    requires { F.IsAlwaysCallable step }
{
    for (show, bytes) in shows.iter().enumerate() {
        let file = ShowFile::open(bytes.as_slice()).map_err(|why| StageFault::Show { show, why })?;
        step(show, file)?;
    }
    Ok(())
}

// Plays the shows whole, and keeps the log of each.
fn play_whole<S: Store, I: InstructionSet<S::Item>>(
    heap: Global,
    host: &mut Host<S, I>,
    shows: &[Vec<u8>],
    logs: &mut Vec<Vec<LogRecord>>,
) -> Result<(), StageFault> {
    each_show(shows, |show, file| {
        logs.push(play_show(heap, host, show, file)?)?;
        Ok(())
    })
}

// Plays what the logs of the shows leave for the parts of a set.
fn play_solo<S: Store, I: InstructionSet<S::Item>>(
    heap: Global,
    host: &mut Host<S, I>,
    shows: &[Vec<u8>],
    set: Mask,
    logs: &[Vec<LogRecord>],
    tally: &mut Tally,
) -> Result<(), StageFault> {
    each_show(shows, |show, file| match logs.get(show) {
        Some(log) => play_left(heap, host, file, set, log.as_slice(), tally),
        None => Ok(()),
    })
}

impl<'a, I> Play<'a, I> {
    // Makes the host and plays the shows on it, whole, or what they leave for the parts upstream of the part that is played alone.
    pub(crate) fn on<S: Store>(self, store: S, session: &mut Session) -> Played<S>
    where
        I: InstructionSet<S::Item> + Drop,
    {
        let Play {
            heap,
            set,
            sheet,
            ports,
            shows,
        } = self;
        let upstream = session.solo.map(|part| ports.upstream(part));
        let Made { mut host, refusal } = Host::make(store, set, sheet, ports);
        let ended = match (refusal, upstream) {
            (Some(why), _) => Err(StageFault::Host(why)),
            (None, None) => play_whole(heap, &mut host, shows, &mut session.logs),
            (None, Some(set)) => play_solo(
                heap,
                &mut host,
                shows,
                set,
                session.logs.as_slice(),
                &mut session.tally,
            ),
        };
        Played {
            store: host.into_store(),
            ended,
        }
    }

    // The same through one layer.
    pub(crate) fn held<S: Store>(self, store: S, session: &mut Session) -> Played<S>
    where
        I: InstructionSet<S::Item> + Drop,
    {
        let Played { store, ended } = self.on(Held::new(store), session);
        Played {
            store: store.close(),
            ended,
        }
    }
}
