// What is left of a show for one part.
ghost use Rattle.std.specs.Prelude.{◌≡◌};
ghost use Rattle.part.specs.Sets.{parts};
ghost use Rattle.solo.specs.Left.{is_left};

use command::kind::Kind;
use part::set::{Mask, contains};

// Whether a record of a show is left for the parts of a set; `refusal` is the log's byte, 0 where the record was granted.
pub fn is_left(set: Mask, bytes: &[u8], refusal: u8) -> bool
    ensures { result ≡ is_left parts set bytes.now refusal }
{
    if bytes.len() != 32 || !contains(set, bytes[2]) {
        return false;
    }
    if bytes[3] == Kind::Restore as u8 || bytes[3] == Kind::Save as u8 {
        return refusal == 0;
    }
    true
}
