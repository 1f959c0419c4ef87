ghost use Rattle.std.specs.Prelude.{◌≡◌, ℕ, List, slice_index_or};
ghost use Rattle.cells.specs.Cells.{cell_list};
ghost use Rattle.store.specs.Meaning.{element};
ghost use Rattle.transfer.specs.Transfers.{Unaltered, Gathered, Scattered};

use cells::list::numbers::Numbers;
use cells::list::{cell, count};
use element::element::Element;
use store::fault::StoreFault;
use store::store::Store;

// A read, which alters nothing that the store means: so arguments are all read before any write.
fn read_only<S: Store>(store: &mut S, n: usize) -> Result<S::Item, StoreFault>
    ensures answer { result ≡ element (S.Store.cells store.old) n }
    ensures cells { S.Store.cells store.new ≡ S.Store.cells store.old }
    ensures lender { S.Store.lender store.new ≡ S.Store.lender store.old }
{
    store.read(n)
}

// The element of a cell, or null where the store has no such cell.
pub fn read_or_null<S: Store>(store: &mut S, n: usize) -> S::Item
    ensures store { Unaltered S.Store store.old store.new }
    ensures value { result ≡ slice_index_or (S.Store.cells store.old) n S.Item.Element.blank }
{
    read_only(store, n).unwrap_or(<S::Item as Element>::null())
}

// Value i, or null where the values run short.
fn value_or_null<E: Element>(values: &[E], i: usize) -> E
    ensures { result ≡ slice_index_or values.now i E.blank }
{
    values.get(i).copied().unwrap_or(E::null())
}

// Reads cells into the first places, as far as there are places, and tells how many it filled.
// Apart from a row's: cells come as bytes here, values as elements.
pub fn gather<S: Store>(store: &mut S, cells: &[u8], places: &mut [S::Item]) -> usize
    ensures store { Unaltered S.Store store.old store.new }
    ensures places { Gathered S.Item.Element.blank (S.Store.cells store.old) (cell_list cells.now)
        places.old places.new result }
{
    let mut numbers = Numbers::of(cells);
    for (i, place) in places.iter_mut().enumerate() {
        let Some(n) = numbers.next() else {
            return i;
        };
        *place = read_or_null(store, n);
    }
    places.len()
}

// Writes values to cells, from the last place to the first, so that of a cell named twice the earlier place counts.
pub fn scatter<S: Store>(store: &mut S, cells: &[u8], values: &[S::Item])
    ensures { Scattered S.Store S.Item.Element store.old store.new
        (cell_list cells.now) values.now }
{
    // By the place: where the values run short, a zip from the back would leave the last cells out.
    let named = count(cells);
    for i in (0..named).rev() {
        let _ = store.write(cell(cells, i), value_or_null(values, i));
    }
}
