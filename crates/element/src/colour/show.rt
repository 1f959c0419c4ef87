// A colour as people read it, as `open`, `slot 3` or `mix 255 128 0`.
ghost use Rattle.std.specs.Prelude.{Some};
ghost use Rattle.element.specs.Shown.{colour_text};

use crate::colour::Colour;
use std::fmt;

impl fmt::Display for Colour {
    ghost output = { λ c. Some (colour_text c) };

    fn fmt<W: fmt::Write>(&self, f: &mut fmt::Formatter<W>) -> fmt::Result {
        match *self {
            Colour::Open => f.write_str("open"),
            Colour::Slot(n) => write!(f, "slot {n}"),
            Colour::Mix { red, green, blue } => write!(f, "mix {red} {green} {blue}"),
        }
    }
}
