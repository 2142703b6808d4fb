// The home rows' lists.
ghost use Rattle.std.specs.Prelude.{◌≡◌};
ghost use Rattle.laws.specs.Tests.{all_below};
ghost use Rattle.model.specs.Check.{row_at};
ghost use Rattle.store_head.specs.Lent.{seen};
ghost use Rattle.store_check.specs.Asked.{HasRow, HasRows};

use store_head::Store;

// Whether home row y has at most its slots, lists made columns strictly rising with logical numbers below the tail's, and is zero in the slots after them.
fn row_ok(store: &Store, y: usize) -> bool
    requires { HasRow (seen store.now) y }
    ensures { result ≡ row_at (seen store.now) y }
{
    let k = store.head.slots as usize;
    let at = y * k;
    let count = store.counts[y] as usize;
    if k < count {
        return false;
    }
    let made = store.head.made as usize;
    let edge = store.head.w - store.head.n;
    if !sparse_vec::sound(
        &store.slots[at..at + count],
        &store.column_logicals[..made],
        edge,
    ) {
        return false;
    }
    lent::rest_zero(&store.slots[at..at + k], count)
}

// Whether each home row is right.
pub fn rows_ok(store: &Store) -> bool
    requires { HasRows (seen store.now) }
    ensures { result ≡ all_below store.now.head.h (row_at (seen store.now)) }
{
    (0..store.head.h as usize).all(|y| row_ok(store, y))
}
