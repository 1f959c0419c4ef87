// What a command asks, in words.
ghost use Rattle.std.specs.Prelude.{Some};
ghost use Rattle.cells.specs.Cells.{cell_list};
ghost use Rattle.command.specs.Commands.{order_of};
ghost use Rattle.report.specs.Asks.{cells_text, order_text};

use cells::list::count;
use cells::list::numbers::Numbers;
use command::command::Command;
use std::fmt;

// At most eight cell numbers after a word, as in `cells 3 5`; nothing where there are none.
#[derive(Clone, Copy)]
struct Cells<'a> {
    word: &'a str,
    bytes: &'a [u8],
}

impl<'a> fmt::Display for Cells<'a> {
    ghost output = { λ c. Some (cells_text c.word.now (cell_list c.bytes.now)) };

    fn fmt<W: fmt::Write>(&self, f: &mut fmt::Formatter<W>) -> fmt::Result {
        if count(self.bytes) == 0 {
            return Ok(());
        }
        f.write_str(self.word)?;
        for n in Numbers::of(self.bytes).take(8) {
            write!(f, " {n}")?;
        }
        Ok(())
    }
}

// A command by its name, with its code or port and its cells. Each name is part of its line's text.
#[derive(Clone, Copy)]
pub struct Asks<'a>(pub Command<'a>);

impl<'a> fmt::Display for Asks<'a> {
    ghost output = { λ a. Some (order_text (order_of a.0)) };

    fn fmt<W: fmt::Write>(&self, f: &mut fmt::Formatter<W>) -> fmt::Result {
        match self.0 {
            Command::Restore => f.write_str("restore"),
            Command::Save => f.write_str("save"),
            Command::Instruct {
                code,
                args,
                results,
            } => {
                let from = Cells {
                    word: " cells",
                    bytes: args,
                };
                let into = Cells {
                    word: " into cells",
                    bytes: results,
                };
                write!(f, "instruct code {code}{from}{into}")
            }
            Command::Send { port, args } => {
                let from = Cells {
                    word: " cells",
                    bytes: args,
                };
                write!(f, "send port {port}{from}")
            }
            Command::Receive { port, results } => {
                let into = Cells {
                    word: " into cells",
                    bytes: results,
                };
                write!(f, "receive port {port}{into}")
            }
        }
    }
}
