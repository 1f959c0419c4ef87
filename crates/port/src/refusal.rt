ghost use Rattle.std.specs.Prelude.{◌≡◌, Some};
ghost use Rattle.port.specs.Sets.{number_of};
ghost use Rattle.port.specs.Texts.{port_text};

use std::fmt;

// Why a setting of a port is refused; it has its number.
#[derive(Clone, Copy, PartialEq, Eq, Debug)]
pub enum PortRefusal {
    // A port from PORTS on.
    Port = 11,
}

impl PortRefusal {
    // The number of the refusal; a method, since `u8::from(why)` would not say what the number is.
    pub fn number(self) -> u8
        ensures { result ≡ number_of self }
    {
        self as u8
    }
}

// The refusal in words.
impl fmt::Display for PortRefusal {
    ghost output = { λ r. Some (port_text r) };

    fn fmt<W: fmt::Write>(&self, f: &mut fmt::Formatter<W>) -> fmt::Result {
        match self {
            PortRefusal::Port => f.write_str("the port is over 15"),
        }
    }
}
