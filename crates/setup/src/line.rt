// One line of a setup text.
ghost use Rattle.std.specs.Prelude.{◌≡◌, ◌≤◌, ℕ, List, ◌∷◌, drop, IfOk, OnOk};
ghost use Rattle.setup.specs.Directives.{Ranged, RangedLine, asked, asked_by, line_of, three_of};
ghost use Rattle.setup.specs.Keywords.{words_wanted};
ghost use Rattle.setup.specs.Pieces.{words_of};

use crate::directive::{Bottom, Directive, ElementKind};
use crate::keyword::Keyword;
use crate::number::number;
use crate::pieces::{Words, without_comment};
use crate::problem::LineProblem;
use element::words::Words as Pair;

// The next three words as numbers, each with its limit.
fn three(words: &mut Words, a: u32, b: u32, c: u32) -> Result<(u32, u32, u32), LineProblem>
    ensures value { (name : List ℕ) → result ≡ three_of a b c (name ∷ words_of words.old.0.now) }
    ensures bounds { IfOk result (λ t. (t.0 ≤ a) × (t.1 ≤ b) × (t.2 ≤ c)) }
    ensures rest { OnOk result (words_of words.new.0.now ≡ drop 3 (words_of words.old.0.now)) }
{
    let x = number(words.wanted()?, a)?;
    let y = number(words.wanted()?, b)?;
    let z = number(words.wanted()?, c)?;
    Ok((x, y, z))
}

// What a line with this name in front asks, by the words behind it.
fn directive(keyword: Keyword, words: &mut Words) -> Result<Directive, LineProblem>
    ensures value { (name : List ℕ) → result ≡ asked keyword (name ∷ words_of words.old.0.now) }
    ensures ranged { IfOk result Ranged }
    ensures rest { (name : List ℕ) → OnOk result (words_of words.new.0.now ≡ drop (words_wanted keyword) (name ∷ words_of words.old.0.now)) }
{
    match keyword {
        Keyword::Kind => Ok(Directive::Kind(ElementKind::try_from(words.wanted()?)?)),
        Keyword::Store => Ok(Directive::Store(Bottom::try_from(words.wanted()?)?)),
        Keyword::Layers => Ok(Directive::Layers(number(words.wanted()?, 2)? as u8)),
        Keyword::Cells => Ok(Directive::Cells(number(words.wanted()?, 65535)? as usize)),
        Keyword::Swap => Ok(Directive::Swap(number(words.wanted()?, 65535)? as usize)),
        Keyword::Grant => {
            let (cell, part, mode) = three(words, 65535, 255, 255)?;
            Ok(Directive::Grant {
                cell: cell as usize,
                part: part as u8,
                mode: mode as u8,
            })
        }
        Keyword::Port => {
            let (port, senders, receivers) = three(words, 255, 255, 255)?;
            Ok(Directive::Port {
                port: port as u8,
                senders: senders as u8,
                receivers: receivers as u8,
            })
        }
        Keyword::Element => {
            let (cell, first, second) = three(words, 65535, u32::MAX, u32::MAX)?;
            Ok(Directive::Element {
                cell: cell as usize,
                words: Pair { first, second },
            })
        }
    }
}

// What a line without comment asks; nothing where it has no words.
fn read_words(text: &[u8]) -> Result<Option<Directive>, LineProblem>
    ensures value { result ≡ asked_by (words_of text.now) }
    ensures ranged { IfOk result RangedLine }
{
    let mut words = Words(text);
    let Some(name) = words.next() else {
        return Ok(None);
    };
    let asked = directive(Keyword::try_from(name)?, &mut words)?;
    if words.next().is_some() {
        return Err(LineProblem::ExtraWord);
    }
    Ok(Some(asked))
}

// What a line of the text asks; nothing where it is blank or a comment.
pub fn read_line(line: &[u8]) -> Result<Option<Directive>, LineProblem>
    ensures value { result ≡ line_of line.now }
    ensures ranged { IfOk result RangedLine }
{
    read_words(without_comment(line))
}
