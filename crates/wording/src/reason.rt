// Refusals and kinds in words.
ghost use Rattle.std.specs.Prelude.{◌≡◌};
ghost use Rattle.wording.specs.Reasons.{name_text, reason_text};

use command::kind::Kind;

// Why a command or a run is refused, by the refusal's number, which is what a log record holds; 0 is no refusal.
pub fn reason(refusal: u8) -> &'static str
    ensures { result.now ≡ reason_text refusal }
{
    match refusal {
        0 => "done",
        1 => "not 32 bytes",
        5 => "the log is too short",
        6 => "a scratch list is too short",
        7 => "no such kind",
        8 => "the shape is broken",
        9 => "no such part",
        10 => "the turn is not there",
        11 => "no right to the port",
        12 => "no right to the cell",
        13 => "the instruction set faults",
        19 => "store and sheet differ in size",
        _ => "refused",
    }
}

// A kind's name, `?` where there is none. An Option, since a record's byte may name none.
pub fn kind_name(kind: Option<Kind>) -> &'static str
    ensures { result.now ≡ name_text kind }
{
    kind.map_or("?", Kind::name)
}
