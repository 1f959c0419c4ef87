ghost use Rattle.std.specs.Prelude.{◌≡◌};
ghost use Rattle.setup.specs.Directives.{kind_named, store_named};

use crate::problem::LineProblem;
use element::words::Words;

// What a cell holds.
#[derive(Clone, Copy)]
pub enum ElementKind {
    Level,
    Head,
}

// The kind that a word names.
impl TryFrom<&[u8]> for ElementKind {
    type Error = LineProblem;

    ghost try_from_gives = { λ word r. r ≡ kind_named word.now };

    fn try_from(word: &[u8]) -> Result<ElementKind, LineProblem> {
        match word {
            b"level" => Ok(ElementKind::Level),
            b"head" => Ok(ElementKind::Head),
            _ => Err(LineProblem::UnknownKind),
        }
    }
}

// Which store stands at the bottom.
#[derive(Clone, Copy)]
pub enum Bottom {
    Flat,
    Packed,
}

// The store that a word names.
impl TryFrom<&[u8]> for Bottom {
    type Error = LineProblem;

    ghost try_from_gives = { λ word r. r ≡ store_named word.now };

    fn try_from(word: &[u8]) -> Result<Bottom, LineProblem> {
        match word {
            b"flat" => Ok(Bottom::Flat),
            b"packed" => Ok(Bottom::Packed),
            _ => Err(LineProblem::UnknownStore),
        }
    }
}

// What one line of a setup text asks.
#[derive(Clone, Copy)]
pub enum Directive {
    // What a cell holds.
    Kind(ElementKind),
    // Which store stands at the bottom.
    Store(Bottom),
    // How many held-write layers stand over it.
    Layers(u8),
    // How many cells there are.
    Cells(usize),
    // A part may read (mode 1), write (2) or do both (0 and 3) with a cell. Any byte is taken: a mode over 3 is a refusal of the sheet.
    Grant {
        cell: usize,
        part: u8,
        mode: u8,
    },
    // A cell is swapped.
    Swap(usize),
    // The parts that may send to a port, and those that may receive from it.
    Port {
        port: u8,
        senders: u8,
        receivers: u8,
    },
    // What a cell holds at first, as packed words.
    Element {
        cell: usize,
        words: Words,
    },
}
