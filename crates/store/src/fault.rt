ghost use Rattle.std.specs.Prelude.{◌≡◌};
ghost use Rattle.store.specs.Refusal.{number as «number_of_lem»};

// Why a store refuses.
#[derive(Clone, Copy, PartialEq, Eq, Debug)]
pub enum StoreFault {
    // the cell is not below the size
    Beyond = 20,
}

impl StoreFault {
    // The refusal's number; a method, since `u8::from(why)` would not say what the number is.
    pub fn number(self) -> u8
        ensures { result ≡ «number_of_lem» self }
    {
        self as u8
    }
}
