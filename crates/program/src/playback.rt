// playback [--log OUT] [--solo PART] SETUP SHOW.., or playback SHOW
use crate::{list, print, read};
use console::fault::Fault;
use console::options::Options;
use stage::fault::StageFault;
use stage::last_cells::Cells;
use stage::session::Session;
use stage::stage::play_shows;
use std::alloc::Global;
use std::io::{BufWriter, Write};

// The fault that is made of the path of a show by its number.
fn about_show<F: FnOnce(String) -> Fault>(
    heap: Global,
    options: &Options,
    show: usize,
    fault: F,
) -> Fault
    requires { F.IsAlwaysCallable fault }
{
    match options.shows.get(show) {
        Some(path) => read::about(heap, path.as_str(), fault),
        None => Fault::Usage,
    }
}

// The fault of the program, with the file that it is about.
fn fault_of(heap: Global, options: &Options, fault: StageFault) -> Fault {
    match fault {
        StageFault::Memory => Fault::Memory,
        StageFault::Host(why) => {
            let refusal = why.number();
            read::about(
                heap,
                options.setup.as_str(),
                |path| Fault::Run { path, refusal },
            )
        }
        StageFault::Show { show, why } => {
            about_show(heap, options, show, |path| Fault::Show { path, why })
        }
        StageFault::Run { show, why } => {
            let refusal = why.number();
            about_show(heap, options, show, |path| Fault::Run { path, refusal })
        }
    }
}

// Plays as the session asks, on a host of the setup's making.
fn play(
    heap: Global,
    options: &Options,
    text: &str,
    shows: &[Vec<u8>],
    session: &mut Session,
) -> Result<Cells, Fault> {
    let setup = read::setup(heap, options.setup.as_str(), text)?;
    play_shows(heap, setup, shows, session).map_err(|fault| fault_of(heap, options, fault))
}

// Reads, plays, prints and writes the log.
fn perform(rt: &HostRuntime, words: Vec<String>) -> Result<(), Fault> {
    let heap = rt.alloc();
    let options = &read::options(heap, words)?;
    let text = read::text(rt, options.setup.as_str())?;
    let checked = read::setup(heap, options.setup.as_str(), text.as_str())?;
    let shows = read::shows(rt, options.shows.as_slice())?;
    let play = |session: &mut Session| {
        play(heap, options, text.as_str(), shows.as_slice(), session)
    };
    let mut session = Session::new(heap);
    let cells = play(&mut session)?;
    if let Some(path) = &options.log {
        print::save(rt, path.as_str(), session.logs.as_slice())?;
    }
    let mut out = BufWriter::new(rt.alloc(), rt.stdout())?;
    print::whole(
        &mut out,
        options.shows.as_slice(),
        session.logs.as_slice(),
        &cells,
    )?;
    if let Some(part) = options.solo {
        let upstream = checked.ports.upstream(part);
        session.leave(part);
        let _cells = play(&mut session)?;
        print::alone(&mut out, part, upstream, session.tally)?;
    }
    Ok(out.flush()?)
}

// A show file alone is printed; a setup with shows is played.
fn choose(rt: &HostRuntime) -> Result<(), Fault> {
    let words = read::words(rt)?;
    if let [path] = words.as_slice() {
        return list::show(rt, path.as_str());
    }
    perform(rt, words)
}

// The whole program; a fault is told on the standard error.
pub fn playback(rt: &HostRuntime) -> Result<(), Fault> {
    let ended = choose(rt);
    if let Err(fault) = &ended {
        eprintln!(rt; "playback: {fault}")?;
    }
    ended
}
