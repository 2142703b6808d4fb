// MAKE, the one call that asks for no well-formed store, and RESIZE.
ghost use Rattle.std.specs.Prelude.{◌≡◌, []};
ghost use Rattle.table.specs.declared.Op.TheVariants as op;
ghost use Rattle.model.specs.Step.{step, result_of};
ghost use Rattle.store_head.specs.Lent.{lent, full_of, SameSlices};
ghost use Rattle.store_head.specs.Writing.{shape, SameShape};
ghost use Rattle.store_head.specs.Told.{change_told};

use making::make;
use reshape::resize;
use store_check::sound;
use store_head::{Refusal, ShapeMut, StoreMut};
use table::Sizes;

// MAKE: a store of `p.h` rows and `p.w` columns, the last `p.n` of them the tail, all zero, `p.slots` slots for each row; refused, "it leaves every number as it was".
pub fn new(store: &mut StoreMut, p: Sizes) -> Result<(), Refusal>
    ensures told { change_told result (lent store.new) ≡ result_of (full_of (lent store.old) []) (step (op.Make p) (full_of (lent store.old) [])) }
    ensures same { SameSlices store.old store.new }
{
    make::new(store, p)
}

// RESIZE: the first h rows and w columns are kept, by logical number.
pub fn resize(store: &mut ShapeMut, h: u32, w: u32) -> Result<(), Refusal>
    ensures told { change_told result (shape store.new) ≡ result_of (full_of (shape store.old) []) (step (op.Resize (record { h = h; w = w })) (full_of (shape store.old) [])) }
    ensures same { SameShape store.old store.new }
{
    sound(&store.view())?;
    resize::resize_in(store, h, w)
}
