ghost use Rattle.std.specs.Prelude.{◌≡◌};
ghost use Rattle.reply.specs.Told.{told, told_values, words_at};

use command::log::{Answer, Values};
use element::element::Element;
use element::words::Words;

// The words of value `i`, or zeros where there is none.
fn words_at<E: Element>(values: &[E], i: usize) -> Words
    ensures { result ≡ words_at E.packed values.now i }
{
    values.get(i).map_or(Words::ZERO, |value| value.pack())
}

// The answer of work that gave values; a record has room for four.
pub fn values<E: Element>(missed: u8, values: &[E]) -> Answer
    ensures { told result ≡ told_values E.packed missed values.now }
{
    let [a, b, c, d] = [0, 1, 2, 3].map(|i| words_at(values, i));
    let words = [
        a.first, a.second, b.first, b.second, c.first, c.second, d.first, d.second,
    ];
    Ok(Some(Values {
        missed,
        count: values.len().min(4) as u8,
        words,
    }))
}
