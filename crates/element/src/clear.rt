ghost use Rattle.std.specs.Prelude.{◌≡◌, length, replicate};

use crate::element::Element;

// Sets every place of a list to the null element. No `fill`: that copying an element cannot fail is no law of `Element`.
pub fn clear<E: Element>(places: &mut [E])
    ensures { places.new ≡ replicate (length places.old) E.blank }
{
    let null = E::null();
    for place in places {
        *place = null;
    }
}
