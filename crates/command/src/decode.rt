ghost use Rattle.std.specs.Prelude.{◌≡◌, ℕ, ◌+◌, ◌*◌, ◌<◌, ◌≤◌, length, take, drop, MatchOption};
ghost use Rattle.command.specs.Kinds.{kind_number};
ghost use Rattle.command.specs.Shape.{kind_of, largest, most, Fault};
ghost use Rattle.command.specs.Decoding.{Decodes, Cases, Asks, Lowest};

use crate::command::Command;
use crate::kind::Kind;
use crate::malformed::Malformed;

// The largest value that byte `i`, from 4 on, may have in a record of this kind and these counts.
fn largest_at(kind: Kind, args: u8, results: u8, i: usize) -> u8
    requires { 4 ≤ i }
    ensures { result ≡ largest (kind_number kind) args results i }
{
    match i {
        4 if kind == Kind::Instruct => 255,
        5 if matches!(kind, Kind::Send | Kind::Receive) => 255,
        6 => kind.arg_limit(),
        7 => kind.result_limit(),
        8..24 if kind.arg_limit() > 0 && i < 8 + 2 * args as usize => 255,
        24.. if kind.result_limit() > 0 && i < 24 + 2 * results as usize => 255,
        _ => 0,
    }
}

// The lowest byte at fault, if there is one.
fn first_fault(kind: Kind, bytes: &[u8; 32]) -> Option<usize>
    requires kind { kind_number kind ≡ kind_of bytes.now }
    ensures { MatchOption result ((k : ℕ) → Fault bytes.now k → ⊥) (Lowest bytes.now) }
{
    (4..32).find(|&i| bytes[i] > largest_at(kind, bytes[6], bytes[7], i))
}

// What a record of a known kind and a good shape asks.
fn command_of<'a>(kind: Kind, bytes: &'a [u8; 32]) -> Command<'a>
    requires kind { kind_number kind ≡ kind_of bytes.now }
    requires shape { (k : ℕ) → Fault bytes.now k → ⊥ }
    ensures { Asks bytes.now result }
{
    let args = &bytes[8..8 + 2 * bytes[6] as usize];
    let results = &bytes[24..24 + 2 * bytes[7] as usize];
    match kind {
        Kind::Restore => Command::Restore,
        Kind::Save => Command::Save,
        Kind::Instruct => Command::Instruct {
            code: bytes[4],
            args,
            results,
        },
        Kind::Send => Command::Send {
            port: bytes[5],
            args,
        },
        Kind::Receive => Command::Receive {
            port: bytes[5],
            results,
        },
    }
}

// The checks of the length, the kind and the shape, in this order.
fn checked<'a>(bytes: &'a [u8]) -> Result<Command<'a>, Malformed>
    ensures { Cases bytes.now result }
{
    let bytes = bytes.as_array::<32>().ok_or(Malformed::Length)?;
    let kind = Kind::try_from(bytes[3])?;
    match first_fault(kind, bytes) {
        Some(at) => Err(Malformed::Shape(at as u8)),
        None => Ok(command_of(kind, bytes)),
    }
}

// What the bytes of a record ask, or why they are refused.
pub fn decode<'a>(bytes: &'a [u8]) -> Result<Command<'a>, Malformed>
    ensures { Decodes bytes.now result }
{
    checked(bytes)
}
