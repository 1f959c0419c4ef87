// What the codes of the head set compute.
ghost use Rattle.std.specs.Prelude.{◌≡◌};
ghost use Rattle.sets.specs.HeadMeaning.{tinted, shifted, flipped};

use element::head::Head;

// The aim of a with the colour of b.
pub(crate) fn tint(a: Head, b: Head) -> Head
    ensures { result ≡ tinted a b }
{
    Head::new(a.pan, a.tilt, b.colour)
}

// a moved on by b's pan and tilt.
pub(crate) fn shift(a: Head, b: Head) -> Head
    ensures { result ≡ shifted a b }
{
    Head::new(
        a.pan.wrapping_add(b.pan),
        a.tilt.wrapping_add(b.tilt),
        a.colour,
    )
}

// Half a turn about, and tilted the other way.
pub(crate) fn flip(a: Head) -> Head
    ensures { result ≡ flipped a }
{
    Head::new(a.pan.wrapping_add(32768), 65535 - a.tilt, a.colour)
}
