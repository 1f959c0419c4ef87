// Why an instruction set gives no elements.
ghost use Rattle.std.specs.Prelude.{◌≡◌};
ghost use Rattle.instruction.specs.Outcomes.{fault_number};

#[derive(Clone, Copy, PartialEq, Eq, Debug)]
pub enum SetFault {
    // The set has no such code.
    UnknownCode = 1,
    // The code takes fewer elements, or more.
    WrongCount = 2,
    // Fewer than four places were lent.
    FewPlaces = 3,
}

impl SetFault {
    // The fault's number: 1, 2 or 3. A name says more than `u8::from` of what a reply holds.
    pub fn number(self) -> u8
        ensures { result ≡ fault_number self }
    {
        self as u8
    }
}
