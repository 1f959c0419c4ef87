// Lines and words of a text.
ghost use Rattle.std.specs.Prelude.{◌≡◌, ◌<◌, ◌≤◌, ℕ, Bool, [], ◌∷◌, length, MatchResult};
ghost use Rattle.std.specs.Option.{option_map};
ghost use Rattle.std.specs.Str.{bytes_eq};
ghost use Rattle.std.specs.Iterator.{YieldsFirstRef, item_count};
ghost use Rattle.setup.specs.Pieces.{after_word, first_word, FirstLine, TakesWord, blank, front, lines_of, trimmed, uncommented, words_of};
ghost use Rattle.setup.specs.declared.problem.LineProblem.TheVariants.{MissingWord};

use crate::problem::LineProblem;

// How many characters in front pass a test, all of them where none fails.
fn count_front<F: Fn(u8) -> bool>(text: &[u8], passes: F) -> usize
    requires { F.IsAlwaysCallable passes }
    ensures value { (p : ℕ → Bool) → ((c : ℕ) (b : Bool) → F.post passes c b → b ≡ p c) → result ≡ front p text.now }
    ensures within { result ≤ length text.now }
{
    text.iter().position(|c| !passes(*c)).unwrap_or(text.len())
}

// Whether a character stands between words.
fn is_blank(c: u8) -> bool
    ensures { result ≡ blank c }
{
    matches!(c, b' ' | b'\t' | b'\r')
}

// The text from its first word on.
fn trim(text: &[u8]) -> &[u8]
    ensures { result.now ≡ trimmed text.now }
{
    &text[count_front(text, is_blank)..]
}

// The first word of a text, and what follows it; both are empty where there is none. Its one caller makes the Option.
fn split_word(text: &[u8]) -> (&[u8], &[u8])
    ensures word { result.0.now ≡ first_word text.now }
    ensures after { result.1.now ≡ after_word text.now }
{
    let rest = trim(text);
    rest.split_at(count_front(rest, |c| !is_blank(c)))
}

// The words of a line, as far as they are left; none is empty.
#[derive(Drop)]
pub(crate) struct Words<'a>(pub &'a [u8]);

impl<'a> Iterator for Words<'a> {
    type Item = &'a [u8];

    ghost next_gives = { λ s r t. TakesWord s.0.now (option_map (λ w. w.now) r) t.0.now };

    ghost remaining = { item_count (λ s. words_of s.0.now) };

    fn next(&mut self) -> Option<&'a [u8]> {
        let (word, rest) = split_word(self.0);
        if word.is_empty() {
            return None;
        }
        self.0 = rest;
        Some(word)
    }
}

impl<'a> Words<'a> {
    // The next word, which has to be there.
    pub(crate) fn wanted(&mut self) -> Result<&'a [u8], LineProblem>
        ensures { MatchResult result (λ w. (words_of self.old.0.now ≡ w.now ∷ words_of self.new.0.now) × (0 < length w.now)) (λ e. (e ≡ MissingWord) × (words_of self.old.0.now ≡ [])) }
    {
        self.next().ok_or(LineProblem::MissingWord)
    }
}

// Whether a word is this text, for callers of this crate; its own words are matched.
pub fn is(word: &[u8], text: &str) -> bool
    ensures { result ≡ bytes_eq word.now text.now }
{
    word == text.as_bytes()
}

// The first line of a text, and what follows it; both are empty where the text is. `Lines` makes the Option.
pub fn split_line(text: &[u8]) -> (&[u8], &[u8])
    ensures { FirstLine text.now result.0.now result.1.now }
{
    match text.iter().position(|c| *c == b'\n') {
        Some(end) => (&text[..end], &text[end + 1..]),
        None => (text, &[]),
    }
}

// The lines of a text, as far as they are left, each without its newline.
#[derive(Drop)]
pub struct Lines<'a>(pub &'a [u8]);

impl<'a> Iterator for Lines<'a> {
    type Item = &'a [u8];

    ghost next_gives = { YieldsFirstRef (λ s. lines_of s.0.now) };

    ghost remaining = { item_count (λ s. lines_of s.0.now) };

    fn next(&mut self) -> Option<&'a [u8]> {
        if self.0.is_empty() {
            return None;
        }
        let (line, rest) = split_line(self.0);
        self.0 = rest;
        Some(line)
    }
}

// A line up to its comment.
pub(crate) fn without_comment(line: &[u8]) -> &[u8]
    ensures { result.now ≡ uncommented line.now }
{
    &line[..count_front(line, |c| c != b'#')]
}
