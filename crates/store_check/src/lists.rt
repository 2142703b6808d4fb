// Tests of whole buffers: the maps, and the places that nothing uses.
ghost use Rattle.std.specs.Prelude.{◌≡◌};
ghost use Rattle.model.specs.Check.{maps_test, unused_test};
ghost use Rattle.store_head.specs.Lent.{head_of, seen};
ghost use Rattle.store_check.specs.Asked.{Limited};

use store_head::Store;

// Whether the maps are inverse to each other, of rows over 0..h and of columns over the width at making.
pub fn maps_ok(store: &Store) -> bool
    ensures { result ≡ maps_test (seen store.now) }
{
    permutation::are_inverse(store.row_homes, store.row_logicals, store.head.h as usize)
        & permutation::are_inverse(
            store.column_homes,
            store.column_logicals,
            store.head.made as usize,
        )
}

// Whether what the head's numbers do not span is zero, to the end of each buffer. (The index's buffers are tested with the index.)
pub fn unused_ok(store: &Store) -> bool
    requires { Limited (head_of store.now.head) }
    ensures { result ≡ unused_test (seen store.now) }
{
    let h = store.head.h as usize;
    let made = store.head.made as usize;
    lent::rest_zero(store.slots, h * store.head.slots as usize)
        & lent::rest_zero(store.counts, h)
        & lent::rest_zero(store.row_homes, h)
        & lent::rest_zero(store.row_logicals, h)
        & lent::rest_zero(store.column_homes, made)
        & lent::rest_zero(store.column_logicals, made)
        & lent::rest_zero(store.words, h * tail::words_for(store.head.n))
}
