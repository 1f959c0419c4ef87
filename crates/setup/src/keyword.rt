ghost use Rattle.std.specs.Prelude.{◌≡◌};
ghost use Rattle.std.specs.Option.{ok_or};
ghost use Rattle.setup.specs.declared.problem.LineProblem.TheVariants.{UnknownDirective};
ghost use Rattle.setup.specs.Keywords.{keyword_of};

use crate::problem::LineProblem;

// The directives by name.
#[derive(Clone, Copy)]
pub(crate) enum Keyword {
    Kind,
    Store,
    Layers,
    Cells,
    Grant,
    Swap,
    Port,
    Element,
}

// The directive that a word names.
impl TryFrom<&[u8]> for Keyword {
    type Error = LineProblem;

    ghost try_from_gives = { λ word r. r ≡ ok_or (keyword_of word.now) UnknownDirective };

    fn try_from(word: &[u8]) -> Result<Keyword, LineProblem> {
        match word {
            b"kind" => Ok(Keyword::Kind),
            b"store" => Ok(Keyword::Store),
            b"layers" => Ok(Keyword::Layers),
            b"cells" => Ok(Keyword::Cells),
            b"grant" => Ok(Keyword::Grant),
            b"swap" => Ok(Keyword::Swap),
            b"port" => Ok(Keyword::Port),
            b"element" => Ok(Keyword::Element),
            _ => Err(LineProblem::UnknownDirective),
        }
    }
}
