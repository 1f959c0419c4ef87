ghost use Rattle.std.specs.Prelude.{◌≡◌, ℕ, List, length};
ghost use Rattle.store.specs.Meaning.{Reads, Writes};

use crate::fault::StoreFault;
use element::element::Element;

// A store means a list of elements of unchanging size. A read may change a store inside, but not what it means.
pub trait Store {
    type Item: Element;

    // What the store means: cell n holds element n.
    ghost cells: { Self → List Self.Item };

    // The ghost names of the memory that was lent to the store; no call changes them. Each call says so, since it is about two states.
    ghost lender: { Self → List ℕ };

    // How many cells there are.
    fn len(&self) -> usize
        ensures { result ≡ length (cells self.now) };

    // The element of cell n, or a refusal.
    fn read(&mut self, n: usize) -> Result<Self::Item, StoreFault>
        ensures reads { Reads (cells self.old) n result (cells self.new) }
        ensures lender { lender self.new ≡ lender self.old };

    // Cell n takes an element, or a refusal.
    fn write(&mut self, n: usize, x: Self::Item) -> Result<(), StoreFault>
        ensures writes { Writes (cells self.old) n x result (cells self.new) }
        ensures lender { lender self.new ≡ lender self.old };
}
