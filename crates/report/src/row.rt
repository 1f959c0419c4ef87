// The table of a run: one row a command.
ghost use Rattle.report.specs.Rows.{row_text};

use crate::outcome::Outcome;
use command::kind::Kind;
use command::log::LogRecord;
use element::element::Element;
use std::fmt;
use std::marker::PhantomData;
use wording::reason::kind_name;

// A log record as a row, its values as elements of this kind.
#[derive(Drop)]
pub struct Row<'a, E> {
    pub logged: &'a LogRecord,
    // Only the type is needed, no element.
    pub kind: PhantomData<E>,
}

// Place, part, command, and the answer: the refusal with its reason, or what was missed and the values.
impl<'a, E: Element + fmt::Display> fmt::Display for Row<'a, E> {
    ghost output = { λ r. row_text E.Display.output E.Element.unpacked r.logged.now };

    fn fmt<W: fmt::Write>(&self, f: &mut fmt::Formatter<W>) -> fmt::Result {
        let r = self.logged;
        let place = r.place;
        let part = r.part;
        let kind = kind_name(Kind::try_from(r.kind).ok());
        let outcome = Outcome::<E> {
            logged: *r,
            kind: PhantomData,
        };
        write!(f, "{place:>5}  {part:>4}  {kind:<8}  {outcome}")
    }
}
