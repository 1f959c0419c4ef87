ghost use Rattle.std.specs.Prelude.{false, if◌then◌else◌, ◌==◌};
ghost use Rattle.element.specs.Pairs.{pair};
ghost use Rattle.std.proofs.Common.{rules};

use element::element::Element;
use element::words::Words;

// A kind of element with two values, for tests.
#[derive(Clone, Copy, PartialEq, Eq, Debug)]
pub struct Bit {
    pub on: bool,
}

impl Element for Bit {
    ghost blank = { record { on = false } };

    ghost packed = { λ b. pair (if b.on then 1 else 0) 0 };

    ghost unpacked = { λ w. record { on = (w.first == 1) } };

    ghost round = { Prim.search rules };

    ghost zero = { Prim.search rules };

    ghost narrow = { Prim.search rules };

    fn null() -> Bit {
        Bit { on: false }
    }

    fn pack(self) -> Words {
        Words {
            first: u32::from(self.on),
            second: 0,
        }
    }

    fn unpack(words: Words) -> Bit {
        Bit {
            on: words.first == 1,
        }
    }
}
