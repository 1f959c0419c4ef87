// The colour of a moving head, and the word it packs to.
ghost use Rattle.std.specs.Prelude.{◌≡◌};
ghost use Rattle.element.specs.Colours.{colour_word, word_colour};

pub mod show;

#[derive(Clone, Copy, PartialEq, Eq, Debug)]
pub enum Colour {
    // No colour in the beam.
    Open,
    // A slot of the colour wheel.
    Slot(u8),
    // A mix of the three primaries.
    Mix { red: u8, green: u8, blue: u8 },
}

// The word of a colour: its case in the top byte, its parts below.
impl From<Colour> for u32 {
    ghost from_gives = { λ c w. w ≡ colour_word c };

    fn from(colour: Colour) -> u32 {
        u32::from_be_bytes(match colour {
            Colour::Open => [0; 4],
            Colour::Slot(n) => [1, 0, 0, n],
            Colour::Mix { red, green, blue } => [2, red, green, blue],
        })
    }
}

// The colour that a word says, by its top byte.
impl From<u32> for Colour {
    ghost from_gives = { λ w c. c ≡ word_colour w };

    fn from(word: u32) -> Colour {
        match word.to_be_bytes() {
            [1, _, _, n] => Colour::Slot(n),
            [2, red, green, blue] => Colour::Mix { red, green, blue },
            _ => Colour::Open,
        }
    }
}
