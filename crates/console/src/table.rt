// The table of a run on a writer.
use command::log::LogRecord;
use element::element::Element;
use report::row::Row;
use std::fmt::Display;
use std::io;
use std::io::Write;
use std::marker::PhantomData;

// The headings of the rows.
pub fn headings<W: Write>(out: &mut W) -> io::Result<()> {
    writeln!(out, "place  part  command   answer")
}

// One row a record, its values as elements of this kind.
pub fn rows<E: Element + Display, W: Write>(out: &mut W, log: &[LogRecord]) -> io::Result<()> {
    for r in log {
        let row = Row::<E> {
            logged: r,
            kind: PhantomData,
        };
        writeln!(out, "{row}")?;
    }
    Ok(())
}

// The cells by number, one a line.
pub fn cells<E: Element + Display, W: Write>(out: &mut W, cells: &[E]) -> io::Result<()> {
    for (i, x) in cells.iter().enumerate() {
        writeln!(out, "cell {i:>3}  {x}")?;
    }
    Ok(())
}

// How many commands there were, and how many of them were refused.
pub fn closing<W: Write>(out: &mut W, commands: usize, refused: usize) -> io::Result<()> {
    writeln!(out, "{commands} commands, {refused} refused")
}
