// Heads from their parts.
ghost use Rattle.std.specs.Prelude.{◌≡◌};
ghost use Rattle.element.specs.Heads.{head};

use crate::colour::Colour;
use crate::head::Head;

impl Head {
    // The head that points so, in this colour.
    pub fn new(pan: u16, tilt: u16, colour: Colour) -> Head
        ensures is { result ≡ head pan tilt colour }
        ensures panned { result.pan ≡ pan }
        ensures tilted { result.tilt ≡ tilt }
        ensures coloured { result.colour ≡ colour }
    {
        Head { pan, tilt, colour }
    }
}
