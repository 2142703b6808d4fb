// The head's numbers, and the lengths that they ask for.
ghost use Rattle.std.specs.Prelude.{◌≡◌};
ghost use Rattle.model.specs.Check.{head_test, length_test};
ghost use Rattle.store_head.specs.Lent.{head_of, seen};
ghost use Rattle.store_check.specs.Asked.{Limited};

use store_head::{Numbers, Store};

// Here and below `&` joins tests that do not lean on each other: a store that is whole passes all of them, so a branch at each would spare nothing.

// Whether the head's numbers keep the limits: "h and w 0 to 65,535, n at most w, slots 0 to 65,535" (01), and w is at most the width at making.
pub fn head_ok(d: Numbers) -> bool
    ensures { result ≡ head_test (head_of d) }
{
    (d.h <= Numbers::MAX_HEIGHT)
        & (d.made <= Numbers::MAX_WIDTH)
        & (d.w <= d.made)
        & (d.n <= d.w)
        & (d.slots <= Numbers::MAX_SLOTS)
}

// Whether the buffers are long enough for the head's numbers. (The maps are measured with their own test, and the entries with the index.)
pub fn long_enough(store: &Store) -> bool
    requires { Limited (head_of store.now.head) }
    ensures { result ≡ length_test (seen store.now) }
{
    let h = store.head.h as usize;
    let made = store.head.made as usize;
    (h * store.head.slots as usize <= store.slots.len())
        & (h <= store.counts.len())
        & (made <= store.marks.len())
        & (made < store.starts.len())
        & (h * tail::words_for(store.head.n) <= store.words.len())
}
