// Levels from numbers.
ghost use Rattle.std.specs.Prelude.{◌≡◌};
ghost use Rattle.element.specs.Levels.{level};

use crate::level::Level;

impl Level {
    // The level of this value.
    pub fn new(value: u8) -> Level
        ensures is { result ≡ level value }
        ensures exact { result.value ≡ value }
    {
        Level::from_low_bits(value as u32)
    }

    // The level in the low 8 bits of a word. Its name says that it drops the others, as a `From` would not.
    pub fn from_low_bits(word: u32) -> Level
        ensures { result ≡ level word }
    {
        Level {
            value: (word % 256) as u8,
        }
    }
}
