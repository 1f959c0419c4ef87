ghost use Rattle.std.specs.Prelude.{◌≡◌};
ghost use Rattle.run.specs.Refusals.{number_of};

// Why a run is refused.
#[derive(Clone, Copy, PartialEq, Eq, Debug)]
pub enum RunRefusal {
    // The argument scratch has fewer than eight places, or the result scratch fewer than four.
    Scratch = 6,
    // The log is shorter than the chain's commands.
    Log = 5,
}

impl RunRefusal {
    // The refusal's number in the rules; a method, since `u8::from(why)` would not say what the number is.
    pub fn number(self) -> u8
        ensures { result ≡ number_of self }
    {
        self as u8
    }
}
