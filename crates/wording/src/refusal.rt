// A refusal of a log record in words.
ghost use Rattle.std.specs.Prelude.{Some};
ghost use Rattle.wording.specs.Reasons.{detail_text, refusal_text};

use crate::reason::reason;
use std::fmt;

// A refusal by its number, with its detail. Both are bytes of a log record.
#[derive(Clone, Copy)]
pub struct RefusalNumber {
    pub number: u8,
    pub detail: u8,
}

// What the refusal is about. A type of its own: written straight into the refusal's text, the arm of a byte stays unproved.
#[derive(Clone, Copy)]
struct About(RefusalNumber);

impl fmt::Display for About {
    ghost output = { λ a. Some (detail_text a.0.number a.0.detail) };

    fn fmt<W: fmt::Write>(&self, f: &mut fmt::Formatter<W>) -> fmt::Result {
        let at = self.0.detail;
        match self.0.number {
            7 | 8 | 9 | 11 => write!(f, " (byte {at})"),
            12 if at < 8 => write!(f, " (argument {at})"),
            12 => {
                let result = at - 8;
                write!(f, " (result {result})")
            }
            13 => write!(f, " (set fault {at})"),
            _ => Ok(()),
        }
    }
}

// The number, the reason, and what it is about.
impl fmt::Display for RefusalNumber {
    ghost output = { λ r. Some (refusal_text r.number r.detail) };

    fn fmt<W: fmt::Write>(&self, f: &mut fmt::Formatter<W>) -> fmt::Result {
        let number = self.number;
        let why = reason(number);
        let about = About(*self);
        write!(f, "refusal {number}: {why}{about}")
    }
}
