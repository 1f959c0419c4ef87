ghost use Rattle.std.specs.Prelude.{◌≡◌, List};
ghost use Rattle.host.specs.Commands.{Makes};
ghost use Rattle.host.specs.Keeping.{kept_turn, listed, made_with, resumed};

use super::{Host, Kept};
use element::element::Element;
use instruction::set::InstructionSet;
use port::ports::Ports;
use queue::queues::Queues;
use sheet::sheet::Sheet;
use store::store::Store;
use transfer::row::SaveRow;

// A turn, from whether it is held and by which part. C keeps the turn so.
fn turn_of(held: bool, holder: u8) -> Option<u8>
    ensures { result ≡ kept_turn held holder }
{
    held.then_some(holder)
}

impl Kept {
    // What a host of this sheet and these port sets keeps at its making, whatever its cells are.
    pub fn new<E: Element, I: InstructionSet<E>>(sheet: Sheet, ports: Ports) -> Kept
        ensures { (xs : List E) (set : I) → Makes listed E.Element I.InstructionSet xs set sheet ports (made_with result xs set) }
    {
        let rows = [SaveRow::blank(); 8];
        Kept {
            sheet,
            ports,
            rows,
            queues: Queues::new(),
            held: false,
            holder: 0,
        }
    }
}

impl<S: Store, I: InstructionSet<S::Item>> Host<S, I> {
    // A host of this store and this set that goes on from what was kept.
    pub fn resume(store: S, set: I, kept: Kept) -> Host<S, I>
        ensures { result ≡ resumed kept store set }
    {
        let turn = turn_of(kept.held, kept.holder);
        let rows = kept.rows;
        Host {
            store,
            set,
            sheet: kept.sheet,
            ports: kept.ports,
            rows,
            turn,
            queues: kept.queues,
        }
    }

    // What the host keeps: with its store and its set it goes on as this host.
    pub fn keep(&self) -> Kept
        ensures { resumed result self.now.store self.now.set ≡ self.now }
    {
        let rows = self.rows;
        Kept {
            sheet: self.sheet,
            ports: self.ports,
            rows,
            queues: self.queues,
            held: self.turn.is_some(),
            holder: self.turn.unwrap_or(0),
        }
    }

    // The store, given back.
    pub fn into_store(self) -> S
    where
        I: Drop,
        ensures { result ≡ self.store }
    {
        let Host {
            store,
            set,
            sheet: _,
            ports: _,
            rows: _,
            turn: _,
            queues: _,
        } = self;
        drop(set);
        store
    }
}
