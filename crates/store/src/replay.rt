ghost use Rattle.std.specs.Prelude.{◌≡◌, ℕ, List, ◌++◌, length};
ghost use Rattle.store.specs.Sequences.{Performed, Replayed};

use crate::access::{Access, Answer};
use crate::store::Store;

// Performs one access.
pub fn perform<S: Store>(store: &mut S, access: Access<S::Item>) -> Answer<S::Item>
    ensures { Performed S.Store store.old store.new access result }
{
    match access {
        Access::Read(n) => store.read(n).map(Some),
        Access::Write(n, x) => store.write(n, x).map(|_| None),
    }
}

// Performs the accesses in their order, as far as there are places for the answers.
pub fn replay<S: Store>(store: &mut S, accesses: &[Access<S::Item>], places: &mut [Answer<S::Item>])
    ensures { Replayed S.Store store.old store.new accesses.now
        places.old places.new }
{
    // By the place, not by `zip`: of a list that was walked so the elements are not known afterwards.
    for (i, place) in places.iter_mut().enumerate() {
        let Some(access) = accesses.get(i) else {
            break;
        };
        *place = perform(store, *access);
    }
}
