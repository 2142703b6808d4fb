// The store check, by itself.
ghost use Rattle.std.specs.Prelude.{◌≡◌};
ghost use Rattle.model.specs.Check.{well_formed};
ghost use Rattle.store_head.specs.Lent.{seen};

use store_head::Store;

// Whether this head and the lent slices are a well-formed store.
pub fn well_formed(store: &Store) -> bool
    ensures { result ≡ well_formed (seen store.now) }
{
    store_check::well_formed(store)
}
