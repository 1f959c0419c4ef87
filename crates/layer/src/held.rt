ghost use Rattle.std.specs.Prelude.{◌≡◌, ℕ, ◌<◌, true, List, [], length};
ghost use Rattle.store.specs.Meaning.{Reads, Writes};
ghost use Rattle.layer.specs.Holds.{inside, outgoing};
ghost use Rattle.layer.specs.Layers.{held_in, Transparent};

use crate::held_write::HeldWrite;
use crate::table::Table;
use element::element::Element;
use store::fault::StoreFault;
use store::store::Store;

// A layer over a store, which holds at most 16 writes back. It cannot be let go: `close` gives the store below back.
pub struct Held<S: Store> {
    below: S,
    table: Table,
    ghost within: { inside (length (S.cells below)) (held_in table) ≡ true },
}

impl<S: Store> Held<S> {
    ghost use Rattle.layer.specs.Steps.{SentDown, Flushes, Closes};

    // A layer that holds nothing.
    pub fn new(below: S) -> Held<S>
        ensures below { result.below ≡ below }
        ensures held { held_in result.table ≡ [] }
        ensures transparent { Transparent S.Item.Element (S.Store.cells below) }
    {
        Held {
            below,
            table: Table::new(),
        }
    }

    // Sends the longest-held write down.
    fn send(&mut self)
        requires { 0 < length (held_in self.old.table) }
        ensures { SentDown S.Store S.Item.Element self.old self.new 1 }
    {
        let w = self.table.shift();
        let x = <S::Item as Element>::unpack(w.words);
        let _ = self.below.write(w.cell, x);
    }

    // Sends the longest-held write down where cell n would be a seventeenth.
    fn make_room(&mut self, n: usize)
        ensures { SentDown S.Store S.Item.Element self.old self.new (outgoing n (held_in self.old.table)) }
    {
        if self.table.is_full_for(n) {
            self.send();
        }
    }

    // Sends all down, the longest-held first.
    pub fn flush(&mut self)
        ensures { Flushes S.Store S.Item.Element self.old self.new }
    {
        // As long as there is one: nothing is counted.
        while self.table.len() > 0 {
            self.send();
        }
    }

    // Flushes, and gives the store below back.
    pub fn close(self) -> S
        ensures { Closes S.Store S.Item.Element self result }
    {
        let mut layer = self;
        layer.flush();
        let Held { below, table: _ } = layer;
        below
    }
}

impl<S: Store> Store for Held<S> {
    ghost use Rattle.layer.specs.Steps.{meant, TakesRead, TakesWrite};

    type Item = S::Item;

    ghost cells = { λ h. meant S.Store S.Item.Element h };

    ghost lender = { λ h. S.Store.lender h.below };

    fn len(&self) -> usize {
        self.below.len()
    }

    fn read(&mut self, n: usize) -> Result<S::Item, StoreFault>
        ensures reads { Reads (meant S.Store S.Item.Element self.old) n result
            (meant S.Store S.Item.Element self.new) }
        ensures lender { S.Store.lender self.new.below ≡ S.Store.lender self.old.below }
        ensures layer { TakesRead S.Store S.Item.Element self.old self.new n }
    {
        if n >= self.below.len() {
            return Err(StoreFault::Beyond);
        }
        match self.table.words_of(n) {
            Some(words) => Ok(<S::Item as Element>::unpack(words)),
            None => self.below.read(n),
        }
    }

    fn write(&mut self, n: usize, x: S::Item) -> Result<(), StoreFault>
        ensures writes { Writes (meant S.Store S.Item.Element self.old) n x result
            (meant S.Store S.Item.Element self.new) }
        ensures lender { S.Store.lender self.new.below ≡ S.Store.lender self.old.below }
        ensures layer { TakesWrite S.Store S.Item.Element self.old self.new n x result }
    {
        if n >= self.below.len() {
            return Err(StoreFault::Beyond);
        }
        let words = x.pack();
        self.make_room(n);
        self.table.put(HeldWrite { cell: n, words });
        Ok(())
    }
}
