ghost use Rattle.std.specs.Prelude.{◌≡◌, ◌^◌, ◌<◌, ◌≤◌, ◌↔◌, false, if◌then◌else◌, nat_lt, IsSome, IfSome};
ghost use Rattle.part.specs.Sets.{bit, parts};

// How many parts a host has; they are numbered from 0.
pub const PARTS: u8 = 8;

// A set of parts: bit n stands for part n.
pub type Mask = u8;

// A part that a host has, by its number.
#[derive(Clone, Copy, PartialEq, Eq, Debug)]
pub struct Part {
    pub number: u8,
    ghost below: { number < parts },
}

impl Part {
    // The part of this number, where there is one.
    pub fn new(number: u8) -> Option<Part>
        ensures there { IsSome result ↔ (number < parts) }
        ensures value { IfSome result (λ p. p.number ≡ number) }
    {
        if number >= PARTS {
            return None;
        }
        Some(Part { number })
    }
}

// The set of one part; no part from PARTS on has one. Any byte is taken.
pub fn single(part: u8) -> Mask
    ensures { result ≡ (if nat_lt part parts then 2 ^ part else 0) }
{
    if part >= PARTS {
        return 0;
    }
    1 << part
}

// Whether the part is in the set; no part from PARTS on is. Any byte is taken.
pub fn contains(set: Mask, part: u8) -> bool
    ensures value { result ≡ bit part set }
    ensures past { parts ≤ part → result ≡ false }
{
    if part >= PARTS {
        return false;
    }
    (set >> part) & 1 == 1
}
