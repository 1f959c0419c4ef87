// What the codes of the level set compute.
ghost use Rattle.std.specs.Prelude.{◌≡◌};
ghost use Rattle.sets.specs.LevelMeaning.{highest, scaled, curved, faded, raised, top_of};

use crate::curve::entry;
use element::level::Level;
use instruction::fault::SetFault;

// The highest of a level and others.
fn highest_of(first: Level, rest: &[Level]) -> Level
    ensures { result ≡ highest first rest.now }
{
    rest.iter().fold(first, |best, x| best.max(*x))
}

// The highest of one to eight levels.
pub(crate) fn top(args: &[Level]) -> Result<Level, SetFault>
    ensures { result ≡ top_of args.now }
{
    match args {
        [first, rest @ ..] if rest.len() < 8 => Ok(highest_of(*first, rest)),
        _ => Err(SetFault::WrongCount),
    }
}

// One level dimmed by another.
pub(crate) fn scale(a: Level, b: Level) -> Level
    ensures { result ≡ scaled a b }
{
    Level::from_low_bits((a.value as u32 * b.value as u32 + 127) / 255)
}

// A level on the dimmer curve, by the table.
pub(crate) fn curve(v: Level) -> Level
    ensures { result ≡ curved v }
{
    Level::new(entry(v.value))
}

// Part t of the way from a to b.
pub(crate) fn fade(a: Level, b: Level, t: Level) -> Level
    ensures { result ≡ faded a b t }
{
    let from = a.value as u32 * (255 - t.value as u32);
    let to = b.value as u32 * t.value as u32;
    Level::from_low_bits((from + to + 127) / 255)
}

// One step up, and no further than full.
pub(crate) fn raise(v: Level) -> Level
    ensures { result ≡ raised v }
{
    Level::new(v.value.saturating_add(1))
}
