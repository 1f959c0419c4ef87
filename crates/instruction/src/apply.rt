ghost use Rattle.std.specs.Prelude.{◌≡◌};
ghost use Rattle.instruction.specs.Outcomes.{Applied};

use crate::fault::SetFault;
use crate::set::InstructionSet;
use element::element::Element;

// Calls a set, and says case by case what then stands in the places.
pub fn apply<E: Element, I: InstructionSet<E>>(
    set: &mut I,
    code: u8,
    args: &[E],
    places: &mut [E],
) -> Result<usize, SetFault>
    ensures applied { Applied (I.meaning set.old code args.now) places.old places.new result }
    ensures same { I.meaning set.new ≡ I.meaning set.old }
{
    set.call(code, args, places)
}
