// What every kind of element has: a null element, a packing into two words, and an unpacking of any two words.
ghost use Rattle.std.specs.Prelude.{◌≡◌, ◌^◌, ◌<◌};
ghost use Rattle.element.specs.declared.words.Words.{Words};
ghost use Rattle.element.specs.Pairs.{pair};

use crate::words::Words;

pub trait Element: Copy {
    // The null element.
    ghost blank: { Self };

    // The two words of an element. Packing is no `From`, since the laws below need a function, and a conversion has a relation.
    ghost packed: { Self → Words };

    // The element of any two words.
    ghost unpacked: { Words → Self };

    // Gives the null element.
    fn null() -> Self
        ensures { result ≡ blank };

    // Packs an element.
    fn pack(self) -> Words
        ensures { result ≡ packed self };

    // Unpacks two words, whatever they are.
    fn unpack(words: Words) -> Self
        ensures { result ≡ unpacked words };

    // Unpacking a packing gives the element back.
    ghost round: { (x : Self) → unpacked (packed x) ≡ x };

    // The null element packs to two zeros.
    ghost zero: { packed blank ≡ pair 0 0 };

    // Packed words fit 32 bits.
    ghost narrow: { (x : Self) → ((packed x).first < 2 ^ 32) × ((packed x).second < 2 ^ 32) };
}
