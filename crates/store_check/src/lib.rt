#![tactic(auto)]
// The store check: whether a head's numbers and the ten lent slices are a well-formed store (01, "Well-formed means all of this"). Any numbers, any lengths.
ghost use Rattle.std.specs.Prelude.{◌≡◌};
ghost use Rattle.model.specs.Check.{well_formed};
ghost use Rattle.store_head.specs.Lent.{seen};

use store_head::Store;

mod guard;
mod index;
mod lists;
mod rows;
mod sizes;

pub use guard::{sound, whole};

// Whether the store is well-formed. The tests go from the head's numbers inward, and each leans on those before it: nothing is read at a place, or
// multiplied, before it is known to fit.
pub fn well_formed(store: &Store) -> bool
    ensures { result ≡ well_formed (seen store.now) }
{
    if !sizes::head_ok(store.head) {
        return false;
    }
    if !sizes::long_enough(store) {
        return false;
    }
    if !lists::maps_ok(store) {
        return false;
    }
    if !lists::unused_ok(store) {
        return false;
    }
    if !rows::rows_ok(store) {
        return false;
    }
    if !tail::padding_clear(store.words, store.head.n, store.head.h as usize) {
        return false;
    }
    index::index_ok(store)
}
