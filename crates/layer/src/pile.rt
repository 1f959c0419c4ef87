ghost use Rattle.store.specs.Sequences.{Answered, Replayed};

use crate::held::Held;
use element::element::Element;
use store::access::{Access, Answer};
use store::flat::Flat;
use store::replay::replay;
use store::store::Store;

// Performs the accesses on a new layer over a store, and gives the store back: it is as if there had been no layer.
pub fn replay_held<S: Store>(
    below: S,
    accesses: &[Access<S::Item>],
    places: &mut [Answer<S::Item>],
) -> S
    ensures { Replayed S.Store below result accesses.now places.old places.new }
{
    let mut layer = Held::new(below);
    replay(&mut layer, accesses, places);
    layer.close()
}

// The same on a store that is lent. It promises other than the one before: a lent store stays lent.
pub fn replay_lent<S: Store>(
    store: &mut S,
    accesses: &[Access<S::Item>],
    places: &mut [Answer<S::Item>],
)
    ensures { Replayed S.Store store.old store.new accesses.now
        places.old places.new }
{
    let _store = replay_held(store, accesses, places);
}

// The same on a lent list of elements. It promises other than the one before: the list is lent.
pub fn replay_list<E: Element>(cells: &mut [E], accesses: &[Access<E>], places: &mut [Answer<E>])
    ensures { Answered cells.old cells.new accesses.now
        places.old places.new }
{
    let mut store = Flat::new(cells);
    replay_lent(&mut store, accesses, places);
}
