// The instruction set over heads.
ghost use Rattle.sets.specs.HeadMeaning.{head_value, head_meaning};
ghost use Rattle.sets.specs.HeadLaws.{HeadLaws};
ghost use Rattle.sets.specs.Few.{meaning_few};

use crate::codes::{Codes, answer};
use crate::head_codes::{flip, shift, tint};
use element::head::Head;
use instruction::fault::SetFault;
use instruction::set::InstructionSet;

// The set of codes over heads; it has no state. A type of its own, since `new` states the laws of this set.
#[derive(Clone, Copy, PartialEq, Eq, Debug)]
pub struct HeadSet;

impl HeadSet {
    // The head set, whose meaning keeps these laws.
    pub fn new() -> HeadSet
        ensures { HeadLaws }
    {
        HeadSet
    }
}

impl Codes<Head> for HeadSet {
    ghost gives = { head_value };

    fn value(code: u8, args: &[Head]) -> Result<Head, SetFault> {
        match (code, args) {
            (2, &[a, b]) => Ok(tint(a, b)),
            (3, &[a, b]) => Ok(shift(a, b)),
            (4, &[a]) => Ok(flip(a)),
            (2..=4, _) => Err(SetFault::WrongCount),
            _ => Err(SetFault::UnknownCode),
        }
    }
}

impl InstructionSet<Head> for HeadSet {
    ghost meaning = { λ _. head_meaning };

    ghost few = { λ _. meaning_few head_value };

    fn call(&mut self, code: u8, args: &[Head], places: &mut [Head]) -> Result<usize, SetFault> {
        answer::<Head, HeadSet>(code, args, places)
    }
}
