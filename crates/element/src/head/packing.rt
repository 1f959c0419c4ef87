// A head as an element.
ghost use Rattle.element.specs.declared.colour.Colour.TheVariants.{Open};
ghost use Rattle.element.specs.Heads.{head, head_words, words_head};
ghost use Rattle.std.proofs.Common.{◌∙◌, ap, arith, rules};
ghost use Rattle.element.specs.Bytes.{low_bytes};
ghost use Rattle.element.specs.Same.{same_head};
ghost use Rattle.element.specs.Back.{colour_back, low_same};

use crate::colour::Colour;
use crate::element::Element;
use crate::head::Head;
use crate::words::Words;

impl Element for Head {
    ghost blank = { head 0 0 Open };

    ghost packed = { head_words };

    ghost unpacked = { words_head };

    ghost round = { λ x.
        same_head (omega (arith, x.panned, x.tilted)) (omega (arith, x.tilted))
        (ap low_bytes (colour_back x.colour x.coloured) ∙ low_same x.colour x.coloured) };

    ghost zero = { Prim.search rules };

    ghost narrow = { Prim.search rules };

    fn null() -> Head {
        Head::new(0, 0, Colour::Open)
    }

    fn pack(self) -> Words {
        Words {
            first: self.pan as u32 * 65536 + self.tilt as u32,
            second: u32::from(self.colour),
        }
    }

    fn unpack(words: Words) -> Head {
        Head::new(
            (words.first / 65536) as u16,
            (words.first % 65536) as u16,
            Colour::from(words.second),
        )
    }
}
