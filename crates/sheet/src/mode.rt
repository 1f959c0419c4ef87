ghost use Rattle.std.specs.Prelude.{◌≡◌};
ghost use Rattle.sheet.specs.Modes.{mode_of};

use crate::refusal::Refusal;

// What a grant lets a part do with a cell.
#[derive(Clone, Copy)]
pub(crate) enum Mode {
    Both,
    Read,
    Write,
}

// 1 reads, 2 writes, 0 and 3 do both.
impl TryFrom<u8> for Mode {
    type Error = Refusal;

    ghost try_from_gives = { λ m r. r ≡ mode_of m };

    fn try_from(mode: u8) -> Result<Mode, Refusal> {
        match mode {
            0 | 3 => Ok(Mode::Both),
            1 => Ok(Mode::Read),
            2 => Ok(Mode::Write),
            _ => Err(Refusal::Mode),
        }
    }
}
