// The instruction set over levels.
ghost use Rattle.sets.specs.LevelMeaning.{level_value, level_meaning};
ghost use Rattle.sets.specs.LevelLaws.{LevelLaws};
ghost use Rattle.sets.specs.Few.{meaning_few};

use crate::codes::{Codes, answer};
use crate::level_codes::{curve, fade, raise, scale, top};
use element::level::Level;
use instruction::fault::SetFault;
use instruction::set::InstructionSet;

// The set of codes over levels; it has no state. A type of its own, since `new` states the laws of this set.
#[derive(Clone, Copy, PartialEq, Eq, Debug)]
pub struct LevelSet;

impl LevelSet {
    // The level set, whose meaning keeps these laws.
    pub fn new() -> LevelSet
        ensures { LevelLaws }
    {
        LevelSet
    }
}

impl Codes<Level> for LevelSet {
    ghost gives = { level_value };

    fn value(code: u8, args: &[Level]) -> Result<Level, SetFault> {
        match (code, args) {
            (2, _) => top(args),
            (3, &[a, b]) => Ok(scale(a, b)),
            (4, &[v]) => Ok(curve(v)),
            (5, &[a, b, t]) => Ok(fade(a, b, t)),
            (6, &[v]) => Ok(raise(v)),
            (3..=6, _) => Err(SetFault::WrongCount),
            _ => Err(SetFault::UnknownCode),
        }
    }
}

impl InstructionSet<Level> for LevelSet {
    ghost meaning = { λ _. level_meaning };

    ghost few = { λ _. meaning_few level_value };

    fn call(&mut self, code: u8, args: &[Level], places: &mut [Level]) -> Result<usize, SetFault> {
        answer::<Level, LevelSet>(code, args, places)
    }
}
