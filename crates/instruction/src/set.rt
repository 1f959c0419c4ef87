// What an instruction set is: a meaning, and a call that keeps to it.
ghost use Rattle.std.specs.Prelude.{◌≡◌, ℕ, ◌≤◌, List, length, Ok, Err, Result};
ghost use Rattle.instruction.specs.declared.fault.SetFault.{SetFault};
ghost use Rattle.instruction.specs.Outcomes.{Called};

use crate::fault::SetFault;
use element::element::Element;

pub trait InstructionSet<E: Element> {
    // What a code makes of a list of elements: other elements, or a fault. A code is a number of the set's own, as a record gives it.
    ghost meaning: { Self → ℕ → List E → Result (List E) SetFault };

    // Puts what the code means into the first places and says how many they are. The meaning stays.
    // The places are lent by the host's caller over C, and too few of them is a fault.
    fn call(&mut self, code: u8, args: &[E], places: &mut [E]) -> Result<usize, SetFault>
        ensures called { Called (meaning self.old code args.now) places.old places.new result }
        ensures same { meaning self.new ≡ meaning self.old };

    // It never makes more than four.
    ghost few: { (s : Self) (code : ℕ) (xs : List E) (vs : List E) → meaning s code xs ≡ Ok vs → length vs ≤ 4 };
}
