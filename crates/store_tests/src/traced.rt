ghost use Rattle.std.specs.Prelude.{◌≡◌};

use store::fault::StoreFault;
use store::store::Store;

// A store that notes which cells were written below it, and how often it was read.
#[derive(Drop)]
pub struct Traced<S: Store> {
    pub below: S,
    pub order: [usize; 40],
    pub writes: usize,
    pub reads: usize,
}

impl<S: Store> Traced<S> {
    pub fn new(below: S) -> Traced<S>
        ensures { result.below ≡ below }
    {
        Traced {
            below,
            order: [0; 40],
            writes: 0,
            reads: 0,
        }
    }
}

impl<S: Store> Store for Traced<S> {
    type Item = S::Item;

    ghost cells = { λ t. S.Store.cells t.below };

    ghost lender = { λ t. S.Store.lender t.below };

    fn len(&self) -> usize {
        self.below.len()
    }

    fn read(&mut self, n: usize) -> Result<S::Item, StoreFault> {
        self.reads = self.reads.saturating_add(1);
        self.below.read(n)
    }

    fn write(&mut self, n: usize, x: S::Item) -> Result<(), StoreFault> {
        if self.writes < 40 {
            self.order[self.writes] = n;
            self.writes += 1;
        }
        self.below.write(n, x)
    }
}
