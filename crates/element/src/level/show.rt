// A level as people read it: its number.
ghost use Rattle.std.specs.Prelude.{Some};
ghost use Rattle.element.specs.Shown.{level_text};

use crate::level::Level;
use std::fmt;

impl fmt::Display for Level {
    ghost output = { λ l. Some (level_text l) };

    fn fmt<W: fmt::Write>(&self, f: &mut fmt::Formatter<W>) -> fmt::Result {
        write!(f, "{}", self.value)
    }
}
