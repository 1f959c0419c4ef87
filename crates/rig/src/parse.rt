// A whole setup text.
ghost use Rattle.std.specs.Prelude.{◌≡◌, IfOk};
ghost use Rattle.rig.specs.Asked.{Asked};
ghost use Rattle.rig.specs.Plans.{rig_of};
ghost use Rattle.rig.specs.Views.{plain_of, told_at};

use crate::draft::Draft;
use crate::problem::SetupError;
use crate::whole_setup::Setup;
use setup::pieces::Lines;

// The setup that a text asks for, its lines carried out in their order; or the first problem, with its line.
pub fn parse(text: &str) -> Result<Setup, SetupError>
    ensures value { told_at result ≡ rig_of text.now }
    ensures asked { IfOk result (λ s. Asked text.now (plain_of s)) }
{
    let mut draft = Draft::new();
    // Counted here and not by `enumerate`, since the number of the last line is told at the end too.
    let mut line = 0;
    for written in Lines(text.as_bytes()) {
        line += 1;
        draft
            .take_line(written)
            .map_err(|problem| SetupError { line, problem })?;
    }
    draft
        .finish()
        .map_err(|problem| SetupError { line, problem })
}
