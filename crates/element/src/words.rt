// Two words of 32 bits: an element as it is kept and logged.
#[repr(C)]
#[derive(Clone, Copy, PartialEq, Eq, Default, Debug)]
pub struct Words {
    pub first: u32,
    pub second: u32,
}

impl Words {
    // Two words of zero, as the null element packs. A constant, so that it can fill an array.
    pub const ZERO: Words = Words {
        first: 0,
        second: 0,
    };
}
