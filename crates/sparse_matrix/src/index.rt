// ON and OFF, and FREEZE, which asks for the index: each checks the whole store first, and refuses a damaged one with 1; then its inner twin does the work or refuses.
ghost use Rattle.std.specs.Prelude.{◌≡◌, []};
ghost use Rattle.table.specs.declared.Op.TheVariants as op;
ghost use Rattle.model.specs.Step.{step, result_of};
ghost use Rattle.store_head.specs.Lent.{full_of};
ghost use Rattle.store_head.specs.Writing.{index, cells, SameIndex, SameCells};
ghost use Rattle.store_head.specs.Told.{change_told};

use changes::switch;
use reshape::freeze;
use store_check::sound;
use store_head::{CellsMut, IndexMut, Refusal};

// ON: the index is built anew.
pub fn enable_column_access_acceleration(store: &mut IndexMut) -> Result<(), Refusal>
    ensures told { change_told result (index store.new) ≡ result_of (full_of (index store.old) []) (step op.On (full_of (index store.old) [])) }
    ensures same { SameIndex store.old store.new }
{
    sound(&store.view())?;
    switch::enable_column_access_acceleration_in(store)
}

// OFF: the index is dropped.
pub fn disable_column_access_acceleration(store: &mut IndexMut) -> Result<(), Refusal>
    ensures told { change_told result (index store.new) ≡ result_of (full_of (index store.old) []) (step op.Off (full_of (index store.old) [])) }
    ensures same { SameIndex store.old store.new }
{
    sound(&store.view())?;
    switch::disable_column_access_acceleration_in(store)
}

// FREEZE: column c, the last sparse one, joins the tail.
pub fn hint_column_dense_and_frozen(store: &mut CellsMut, c: u32) -> Result<(), Refusal>
    ensures told { change_told result (cells store.new) ≡ result_of (full_of (cells store.old) []) (step (op.Freeze (record { c = c })) (full_of (cells store.old) [])) }
    ensures same { SameCells store.old store.new }
{
    sound(&store.view())?;
    freeze::hint_column_dense_and_frozen_in(store, c)
}
