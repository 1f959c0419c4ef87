ghost use Rattle.std.specs.Prelude.{◌≡◌, MatchOption};
ghost use Rattle.sheet.specs.Modes.{Blocked, Widened};

use super::Rights;
use crate::mode::Mode;
use part::row::is_exclusive;
use part::set::{Part, single};

impl Rights {
    // No part may touch the cell.
    pub(crate) fn none() -> Rights
        ensures read { result.read ≡ 0 }
        ensures write { result.write ≡ 0 }
    {
        Rights { read: 0, write: 0 }
    }

    // The rights with the part's bits more; none where another part has a bit.
    pub(crate) fn widened(self, part: Part, mode: Mode) -> Option<Rights>
        ensures { MatchOption result (Blocked self part.number mode) (Widened self part.number mode) }
    {
        let bit = single(part.number);
        let (read, write) = match mode {
            Mode::Both => (self.read | bit, self.write | bit),
            Mode::Read => (self.read | bit, self.write),
            Mode::Write => (self.read, self.write | bit),
        };
        if is_exclusive(read, write) {
            Some(Rights { read, write })
        } else {
            None
        }
    }
}
