// What the sets share: how they answer a call.
ghost use Rattle.std.specs.Prelude.{◌≡◌, ℕ, ◌≤◌, List, length, Result};
ghost use Rattle.instruction.specs.declared.fault.SetFault.{SetFault};
ghost use Rattle.instruction.specs.Outcomes.{counted, laid, Called};
ghost use Rattle.sets.specs.Takes.{all_of, meaning_of};

use element::element::Element;
use instruction::fault::SetFault;

// The codes from 2 on of a set without state: each gives one element.
pub(crate) trait Codes<E: Element> {
    // What a code from 2 on makes of a list of elements.
    ghost gives: { ℕ → List E → Result E SetFault };

    // The one element that a code from 2 on gives.
    fn value(code: u8, args: &[E]) -> Result<E, SetFault>
        ensures { result ≡ gives code args.now };
}

// Copies at most four elements to the first places.
fn pass<E: Copy>(args: &[E], places: &mut [E]) -> Result<usize, SetFault>
    requires { 4 ≤ length places.old }
    ensures answer { result ≡ counted (all_of args.now) }
    ensures places { places.new ≡ laid places.old (all_of args.now) }
{
    let n = args.len();
    if n > 4 {
        return Err(SetFault::WrongCount);
    }
    places[0..n].copy_from_slice(args);
    Ok(n)
}

// Answers a call of a set with these codes and code 1, which gives its elements back.
pub(crate) fn answer<E: Element, C: Codes<E>>(
    code: u8,
    args: &[E],
    places: &mut [E],
) -> Result<usize, SetFault>
    ensures { Called (meaning_of C.gives code args.now) places.old places.new result }
{
    if places.len() < 4 {
        return Err(SetFault::FewPlaces);
    }
    if code == 1 {
        return pass(args, places);
    }
    places[0] = C::value(code, args)?;
    Ok(1)
}
