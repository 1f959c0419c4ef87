ghost use Rattle.std.specs.Prelude.{◌≡◌, ℕ, [], ◌∷◌, length};
ghost use Rattle.store.specs.Meaning.{Reads, Writes};

use crate::fault::StoreFault;
use crate::store::Store;
use element::element::Element;

fn read_at<E: Copy>(cells: &mut [E], n: usize) -> Result<E, StoreFault>
    ensures { Reads cells.old n result cells.new }
{
    cells.get(n).copied().ok_or(StoreFault::Beyond)
}

fn write_at<E: Copy>(cells: &mut [E], n: usize, x: E) -> Result<(), StoreFault>
    ensures { Writes cells.old n x result cells.new }
{
    // By its index: after a write through `get_mut` no proof knows the elements.
    if n < cells.len() {
        cells[n] = x;
        Ok(())
    } else {
        Err(StoreFault::Beyond)
    }
}

// A store over a lent list of elements, which is what it means.
#[derive(Drop)]
pub struct Flat<'a, E> {
    cells: &'a mut [E],
}

impl<'a, E> Flat<'a, E> {
    pub fn new(cells: &'a mut [E]) -> Flat<'a, E>
        ensures value { result.cells.now ≡ cells.old }
        ensures lender { result.cells.ghost_name ≡ cells.entry.ghost_name }
    {
        Flat { cells }
    }
}

impl<'a, E: Element> Store for Flat<'a, E> {
    type Item = E;

    ghost cells = { λ s. s.cells.now };

    ghost lender = { λ s. s.cells.ghost_name ∷ [] };

    fn len(&self) -> usize {
        self.cells.len()
    }

    fn read(&mut self, n: usize) -> Result<E, StoreFault> {
        read_at(self.cells, n)
    }

    fn write(&mut self, n: usize, x: E) -> Result<(), StoreFault> {
        write_at(self.cells, n, x)
    }
}
