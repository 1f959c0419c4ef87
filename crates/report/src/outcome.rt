// What a command was answered, in words.
ghost use Rattle.std.specs.Prelude.{◌≡◌, ◌<◌, Some};
ghost use Rattle.report.specs.Outcomes.{before, value_at, missed_text, outcome_text};

use command::log::LogRecord;
use element::element::Element;
use element::words::Words;
use std::fmt;
use std::marker::PhantomData;
use wording::refusal::RefusalNumber;

// What stands before value `i`.
fn before(i: usize) -> &'static str
    ensures { result.now ≡ before i }
{
    if i == 0 { ": " } else { "; " }
}

// Value `i` of a record. By its number, as it is defined: words 2i and 2i + 1.
fn value_at<E: Element>(r: &LogRecord, i: usize) -> E
    requires { i < 4 }
    ensures { result ≡ value_at E.unpacked r.now i }
{
    E::unpack(Words {
        first: r.words[2 * i],
        second: r.words[2 * i + 1],
    })
}

// How many messages were missed, where there were any.
#[derive(Clone, Copy)]
struct Missed(u8);

impl fmt::Display for Missed {
    ghost output = { λ m. Some (missed_text m.0) };

    fn fmt<W: fmt::Write>(&self, f: &mut fmt::Formatter<W>) -> fmt::Result {
        let missed = self.0;
        if missed == 0 {
            return Ok(());
        }
        write!(f, ", missed {missed}")
    }
}

// The answer of a log record, its values as elements of this kind.
#[derive(Drop)]
pub struct Outcome<E> {
    pub logged: LogRecord,
    // Only the type is needed, no element.
    pub kind: PhantomData<E>,
}

// The refusal with its reason, or what was missed and the values.
impl<E: Element + fmt::Display> fmt::Display for Outcome<E> {
    ghost output = { λ o. outcome_text E.Display.output E.Element.unpacked o.logged };

    fn fmt<W: fmt::Write>(&self, f: &mut fmt::Formatter<W>) -> fmt::Result {
        let r = self.logged;
        if r.refusal != 0 {
            let refusal = RefusalNumber {
                number: r.refusal,
                detail: r.detail,
            };
            return write!(f, "{refusal}");
        }
        let missed = Missed(r.missed);
        write!(f, "done{missed}")?;
        // Value `i` stands in words `2 * i` and `2 * i + 1`.
        for i in 0..usize::from(r.count).min(4) {
            let before = before(i);
            let x = value_at::<E>(&r, i);
            write!(f, "{before}{x}")?;
        }
        Ok(())
    }
}
