// What is printed, and the log file.
use crate::read::about;
use command::log::LogRecord;
use console::fault::Fault;
use console::table::{cells, closing, headings, rows};
use element::element::Element;
use element::head::Head;
use element::level::Level;
use logfile::binary::add_log;
use part::set::{Mask, PARTS, contains};
use solo::logs::refused;
use stage::last_cells::Cells;
use stage::session::Tally;
use std::fmt::Display;
use std::io::Write;
use std::{fs, io};

// The sum of a number of each log, as far as a number goes.
fn total<F: Fn(&[LogRecord]) -> usize>(logs: &[Vec<LogRecord>], number: F) -> usize
    requires { F.IsAlwaysCallable number }
{
    logs.iter().fold(0, |sum: usize, log| {
        sum.saturating_add(number(log.as_slice()))
    })
}

// Each show's path and table, the cells, and the closing line.
fn tables<E: Element + Display, W: Write>(
    out: &mut W,
    paths: &[String],
    logs: &[Vec<LogRecord>],
    last: &[E],
) -> io::Result<()> {
    for (path, log) in paths.iter().zip(logs) {
        writeln!(out, "{path}")?;
        headings(out)?;
        rows::<E, W>(out, log.as_slice())?;
        writeln!(out, "")?;
    }
    cells::<E, W>(out, last)?;
    closing(out, total(logs, |log| log.len()), total(logs, refused))
}

// The whole run, by the kind of its cells.
pub(crate) fn whole<W: Write>(
    out: &mut W,
    paths: &[String],
    logs: &[Vec<LogRecord>],
    last: &Cells,
) -> io::Result<()> {
    match last {
        Cells::Levels(levels) => tables::<Level, W>(out, paths, logs, levels.as_slice()),
        Cells::Heads(heads) => tables::<Head, W>(out, paths, logs, heads.as_slice()),
    }
}

// The parts that can reach one part, itself among them.
fn reaching<W: Write>(out: &mut W, part: u8, upstream: Mask) -> io::Result<()> {
    write!(out, "upstream of part {part}: parts")?;
    for other in (0..PARTS).filter(|part| contains(upstream, *part)) {
        write!(out, " {other}")?;
    }
    writeln!(out, "")
}

// Who is upstream of one part, what was left for it, and whether it was answered as before.
pub(crate) fn alone<W: Write>(
    out: &mut W,
    part: u8,
    upstream: Mask,
    tally: Tally,
) -> io::Result<()> {
    let left = tally.left;
    let alike = tally.alike;
    let verdict = if left == alike {
        "the same"
    } else {
        "NOT the same"
    };
    reaching(out, part, upstream)?;
    writeln!(
        out,
        "part {part} alone: {left} commands left, {alike} answered alike: {verdict}"
    )
}

// All logs into one file, 44 bytes a record.
pub(crate) fn save(rt: &HostRuntime, path: &str, logs: &[Vec<LogRecord>]) -> Result<(), Fault> {
    let mut bytes = Vec::new(rt.alloc());
    for log in logs {
        add_log(&mut bytes, log.as_slice())?;
    }
    fs::write(rt, path, bytes.as_slice()).map_err(|error| about(
        rt.alloc(),
        path,
        |path| Fault::File { path, error },
    ))
}
