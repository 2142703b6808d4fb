// The column index.
ghost use Rattle.std.specs.Prelude.{◌≡◌};
ghost use Rattle.laws.specs.Plain.{pick};
ghost use Rattle.model.specs.Check.{on_test, off_test};
ghost use Rattle.store_head.specs.Lent.{seen};
ghost use Rattle.store_check.specs.Asked.{HasIndex};

use store_head::Store;

// Whether an index that is off is dropped: "every index start and entry is zero, all marks exact" (01), that is 0.
fn off_ok(store: &Store) -> bool
    ensures { result ≡ off_test (seen store.now) }
{
    lent::rest_zero(store.starts, 0)
        & lent::rest_zero(store.entries, 0)
        & lent::rest_zero(store.marks, 0)
}

// Whether the index is as the head's switch says.
pub fn index_ok(store: &Store) -> bool
    requires { HasIndex (seen store.now) }
    ensures { result ≡ pick store.now.head.on (on_test (seen store.now)) (off_test (seen store.now)) }
{
    if !store.head.on {
        return off_ok(store);
    }
    arraymap::sound(
        store.slots,
        store.counts,
        store.head.h as usize,
        store.head.slots as usize,
        store.head.made as usize,
        store.starts,
        store.entries,
        store.column_logicals,
        store.marks,
        store.head.w - store.head.n,
    )
}
