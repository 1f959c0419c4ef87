// Numbers of a setup text, decimal or hexadecimal after 0x.
ghost use Rattle.std.specs.Prelude.{◌≡◌, ◌≤◌, IfOk};
ghost use Rattle.std.specs.Option.{option_map};
ghost use Rattle.setup.specs.Numbers.{capped, number_of, number_up_to, written};

use crate::problem::LineProblem;

// Numbers are read exactly below this one, which stands for all that are larger.
// A later character may still be no digit, which is told first.
const CAP: u64 = 4294967296;

// The number that digits of a base write; none where there are none, or one is no digit of the base.
fn digits(word: &[u8], base: u32) -> Option<u64>
    requires { (2 ≤ base) × (base ≤ 16) }
    ensures { result ≡ option_map capped (written base word.now) }
{
    if word.is_empty() {
        return None;
    }
    let mut value = 0;
    for c in word {
        let d = char::from(*c).to_digit(base)?;
        value = (value * u64::from(base) + u64::from(d)).min(CAP);
    }
    Some(value)
}

// The number that a word stands for, or none: decimal, or hexadecimal after 0x.
fn read(word: &[u8]) -> Option<u64>
    ensures { result ≡ option_map capped (number_of word.now) }
{
    match word.strip_prefix(b"0x") {
        Some(word) => digits(word, 16),
        None => digits(word, 10),
    }
}

// The number that a word stands for where it is at most `most`; the empty word is a missing one. Any word is taken, also the empty one.
pub fn number(word: &[u8], most: u32) -> Result<u32, LineProblem>
    ensures value { result ≡ number_up_to most word.now }
    ensures bound { IfOk result (λ n. n ≤ most) }
{
    if word.is_empty() {
        return Err(LineProblem::MissingWord);
    }
    let n = read(word).ok_or(LineProblem::NotNumber)?;
    if n > u64::from(most) {
        return Err(LineProblem::TooLarge(most));
    }
    Ok(n as u32)
}
