// A level as an element.
ghost use Rattle.element.specs.Levels.{level, level_words, words_level};
ghost use Rattle.std.proofs.Common.{arith, rules};
ghost use Rattle.element.specs.Same.{same_level};

use crate::element::Element;
use crate::level::Level;
use crate::words::Words;

impl Element for Level {
    ghost blank = { level 0 };

    ghost packed = { level_words };

    ghost unpacked = { words_level };

    ghost round = { λ x. same_level (omega (arith, x.byte)) };

    ghost zero = { Prim.search rules };

    ghost narrow = { Prim.search rules };

    fn null() -> Level {
        Level::new(0)
    }

    fn pack(self) -> Words {
        Words {
            first: self.value as u32,
            second: 0,
        }
    }

    fn unpack(words: Words) -> Level {
        Level::from_low_bits(words.first)
    }
}
