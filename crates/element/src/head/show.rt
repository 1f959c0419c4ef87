// A head as people read it, as `pan 40000 tilt 1000 slot 3`.
ghost use Rattle.std.specs.Prelude.{Some};
ghost use Rattle.element.specs.Shown.{head_text};

use crate::head::Head;
use std::fmt;

impl fmt::Display for Head {
    ghost output = { λ h. Some (head_text h) };

    fn fmt<W: fmt::Write>(&self, f: &mut fmt::Formatter<W>) -> fmt::Result {
        let Head { pan, tilt, colour } = *self;
        write!(f, "pan {pan} tilt {tilt} {colour}")
    }
}
