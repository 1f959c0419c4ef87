ghost use Rattle.std.specs.Prelude.{◌≡◌, ℕ, List, take, replicate};
ghost use Rattle.element.specs.Pairs.{pair};
ghost use Rattle.transfer.specs.Rows.{row_of, Saved};
ghost use Rattle.transfer.specs.Transfers.{Unaltered, Scattered};

use super::SaveRow;
use crate::transfer::read_or_null;
use element::element::Element;
use element::words::Words;
use store::store::Store;

impl SaveRow {
    // A row of null elements.
    pub fn blank() -> SaveRow
        ensures { result.words ≡ replicate 16 (pair 0 0) }
    {
        SaveRow {
            words: [Words::ZERO; 16],
        }
    }
}

// The first 16 swapped cells take the elements of a row; cells past these are left alone.
// Apart from `scatter`: cells come as numbers here, values as words.
pub fn swap_in<S: Store>(store: &mut S, swaps: &[usize], row: SaveRow)
    ensures { Scattered S.Store S.Item.Element store.old store.new
        (take 16 swaps.now) (row_of S.Item.Element.unpacked row) }
{
    // By the place: the pairs count from the front, and are gone over from the back.
    let many = swaps.len().min(row.words.len());
    for i in (0..many).rev() {
        let x = <S::Item as Element>::unpack(row.words[i]);
        let _ = store.write(swaps[i], x);
    }
}

// A row takes the elements of the first 16 swapped cells; cells past these are left out.
pub fn swap_out<S: Store>(store: &mut S, swaps: &[usize]) -> SaveRow
    ensures store { Unaltered S.Store store.old store.new }
    ensures row { Saved S.Item.Element (S.Store.cells store.old) (take 16 swaps.now) result }
{
    let mut row = SaveRow::blank();
    for (i, words) in row.words.iter_mut().enumerate() {
        let Some(n) = swaps.get(i) else {
            break;
        };
        *words = read_or_null(store, *n).pack();
    }
    row
}
