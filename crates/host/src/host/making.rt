ghost use Rattle.std.specs.Prelude.{◌≡◌, if◌then◌else◌, Some, None, nat_eq};
ghost use Rattle.command.specs.declared.refusal.Refusal.TheVariants as refusal;
ghost use Rattle.host.specs.Commands.{Makes};

use super::{Host, Kept, Made};
use command::refusal::Refusal;
use element::element::Element;
use instruction::set::InstructionSet;
use port::ports::Ports;
use sheet::sheet::Sheet;
use store::store::Store;

// Refusal 19 where the sizes differ. An Option, since a host is made all the same.
fn misfit(cells: usize, size: usize) -> Option<Refusal>
    ensures { result ≡ (if nat_eq cells size then None else Some refusal.Size) }
{
    (cells != size).then_some(Refusal::Size)
}

impl<S: Store, I: InstructionSet<S::Item>> Host<S, I> {
    // A host of these parts; with refusal 19 where store and sheet differ in size.
    pub fn make(store: S, set: I, sheet: Sheet, ports: Ports) -> Made<S, I>
        ensures { Makes S.Store S.Item.Element I.InstructionSet store set sheet ports result }
    {
        let refusal = misfit(store.len(), sheet.size());
        let kept = Kept::new::<S::Item, I>(sheet, ports);
        let host = Host::resume(store, set, kept);
        Made { host, refusal }
    }

    // The part that has the turn.
    pub fn turn(&self) -> Option<u8>
        ensures { result ≡ self.now.turn }
    {
        self.turn
    }
}
