ghost use Rattle.std.specs.Prelude.{◌≡◌, ◌∷◌, length};

use crate::fault::StoreFault;
use crate::store::Store;

// A lent store is a store.
impl<'b, S: Store> Store for &'b mut S {
    type Item = S::Item;

    ghost cells = { λ r. S.Store.cells r.now };

    ghost lender = { λ r. r.ghost_name ∷ S.Store.lender r.now };

    fn len(&self) -> usize {
        (**self).len()
    }

    fn read(&mut self, n: usize) -> Result<S::Item, StoreFault> {
        (**self).read(n)
    }

    fn write(&mut self, n: usize, x: S::Item) -> Result<(), StoreFault> {
        (**self).write(n, x)
    }
}
