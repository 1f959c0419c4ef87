ghost use Rattle.std.specs.Prelude.{◌≡◌};
ghost use Rattle.part.specs.Sets.{parts};
ghost use Rattle.sheet.specs.Rows.{granted, swapped};
ghost use Rattle.sheet.specs.View.{rows_of};
ghost use Rattle.setup.specs.Directives.{line_of};
ghost use Rattle.std.specs.Option.{option_map};
ghost use Rattle.rig.specs.Plans.{changed, empty, ended, once, sized, taken, taken_element, taken_line};
ghost use Rattle.rig.specs.Views.{plain_of, plan_of, told};

use super::Draft;
use crate::problem::Problem;
use crate::whole_setup::Setup;
use element::words::Words;
use port::ports::Ports;
use setup::directive::{Bottom, Directive};
use setup::line::read_line;
use sheet::sheet::Sheet;

// What may stand once.
fn first<T: Drop>(before: Option<T>, value: T) -> Result<Option<T>, Problem>
    ensures { told (λ o. o) result ≡ once before value }
{
    match before {
        None => Ok(Some(value)),
        Some(_) => Err(Problem::Repeated),
    }
}

impl Draft {
    // Before the first line.
    pub(crate) fn new() -> Draft
        ensures { plan_of result ≡ empty }
    {
        Draft {
            kind: None,
            store: None,
            layers: None,
            sheet: None,
            ports: Ports::new(),
            elements: [Words::ZERO; 512],
        }
    }

    // The first element of a cell of the sheet, in place of an earlier one.
    fn place(&mut self, cell: usize, words: Words) -> Result<(), Problem>
        ensures { told (λ _. plan_of self.new) result ≡ taken_element (plan_of self.old) cell words }
    {
        let Some(sheet) = &self.sheet else {
            return Err(Problem::Early);
        };
        if cell >= sheet.size() {
            return Err(Problem::Beyond);
        }
        self.elements[cell] = words;
        Ok(())
    }

    // Carries a directive out.
    fn take(&mut self, directive: Directive) -> Result<(), Problem>
        ensures { told (λ _. plan_of self.new) result ≡ taken (plan_of self.old) directive }
    {
        match directive {
            Directive::Kind(kind) => self.kind = first(self.kind, kind)?,
            Directive::Store(bottom) => self.store = first(self.store, bottom)?,
            Directive::Layers(layers) => self.layers = first(self.layers, layers)?,
            Directive::Cells(cells) => {
                if self.sheet.is_some() {
                    return Err(Problem::Repeated);
                }
                self.sheet = Some(Sheet::new(cells)?);
            }
            Directive::Grant { cell, part, mode } => {
                let sheet = self.sheet.ok_or(Problem::Early)?;
                self.sheet = Some(sheet.grant(cell, part, mode)?);
            }
            Directive::Swap(cell) => {
                let sheet = self.sheet.ok_or(Problem::Early)?;
                self.sheet = Some(sheet.swap(cell)?);
            }
            Directive::Port {
                port,
                senders,
                receivers,
            } => self.ports.set(port, senders, receivers)?,
            Directive::Element { cell, words } => self.place(cell, words)?,
        }
        Ok(())
    }

    // Reads a line and carries out what it asks.
    pub(crate) fn take_line(&mut self, line: &[u8]) -> Result<(), Problem>
        ensures { told (λ _. plan_of self.new) result ≡ taken_line (plan_of self.old) (line_of line.now) }
    {
        match read_line(line)? {
            None => Ok(()),
            Some(directive) => self.take(directive),
        }
    }

    // The setup at the end of the text.
    pub(crate) fn finish(self) -> Result<Setup, Problem>
        ensures { told plain_of result ≡ ended (plan_of self) (plan_of self).kind (plan_of self).rows }
    {
        Ok(Setup {
            kind: self.kind.ok_or(Problem::NoKind)?,
            store: self.store.unwrap_or(Bottom::Flat),
            layers: self.layers.unwrap_or(0),
            sheet: self.sheet.ok_or(Problem::NoCells)?,
            ports: self.ports,
            elements: self.elements,
        })
    }
}
