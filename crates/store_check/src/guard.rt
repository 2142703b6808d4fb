// The check before a call.
ghost use Rattle.store_head.specs.Lent.{seen, lent};
ghost use Rattle.store_check.specs.Guards.{Guards};

use crate::well_formed;
use store_head::{Refusal, Store, StoreMut};

// Refuses a damaged store with 1, before it is asked.
pub fn sound(store: &Store) -> Result<(), Refusal>
    ensures { Guards result (seen store.now) }
{
    if !well_formed(store) {
        return Err(Refusal::Damaged);
    }
    Ok(())
}

// Refuses a damaged store with 1, before it is changed.
pub fn whole(store: &StoreMut) -> Result<(), Refusal>
    ensures { Guards result (lent store.now) }
{
    sound(&store.view())
}
