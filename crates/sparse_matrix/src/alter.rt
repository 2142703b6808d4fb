// The public calls that change cells or exchange rows and columns: each checks the whole store first, and refuses a damaged one with 1; then its inner twin does the work or refuses.
ghost use Rattle.std.specs.Prelude.{◌≡◌, []};
ghost use Rattle.table.specs.declared.Op.TheVariants as op;
ghost use Rattle.model.specs.Step.{step, result_of};
ghost use Rattle.store_head.specs.Lent.{full_of};
ghost use Rattle.store_head.specs.Writing.{cells, row_maps, column_maps, sums, SameCells, SameRowMaps, SameColumnMaps, SameSum};
ghost use Rattle.store_head.specs.Told.{change_told};

use cells::{add, set};
use changes::swap;
use store_check::sound;
use store_head::{CellsMut, ColumnMapsMut, Refusal, RowMapsMut, SumMut};

// SET: the bit in row r and column c becomes v.
pub fn set(store: &mut CellsMut, r: u32, c: u32, v: u8) -> Result<(), Refusal>
    ensures told { change_told result (cells store.new) ≡ result_of (full_of (cells store.old) []) (step (op.Set (record { r = r; c = c; v = v })) (full_of (cells store.old) [])) }
    ensures same { SameCells store.old store.new }
{
    sound(&store.view())?;
    set::set_in(store, r, c, v)
}

// SWAPR: rows i and j are exchanged.
pub fn swap_rows(store: &mut RowMapsMut, i: u32, j: u32) -> Result<(), Refusal>
    ensures told { change_told result (row_maps store.new) ≡ result_of (full_of (row_maps store.old) []) (step (op.SwapR (record { i = i; j = j })) (full_of (row_maps store.old) [])) }
    ensures same { SameRowMaps store.old store.new }
{
    sound(&store.view())?;
    swap::swap_rows_in(store, i, j)
}

// SWAPC: columns i and j are exchanged.
pub fn swap_columns(store: &mut ColumnMapsMut, i: u32, j: u32) -> Result<(), Refusal>
    ensures told { change_told result (column_maps store.new) ≡ result_of (full_of (column_maps store.old) []) (step (op.SwapC (record { i = i; j = j })) (full_of (column_maps store.old) [])) }
    ensures same { SameColumnMaps store.old store.new }
{
    sound(&store.view())?;
    swap::swap_columns_in(store, i, j)
}

// ADD: row s is added to row d, from column start on.
pub fn add_assign_rows(store: &mut SumMut, d: u32, s: u32, start: u32) -> Result<(), Refusal>
    ensures told { change_told result (sums store.new) ≡ result_of (full_of (sums store.old) []) (step (op.Add (record { d = d; s = s; start = start })) (full_of (sums store.old) [])) }
    ensures same { SameSum store.old store.new }
{
    sound(&store.view())?;
    add::add_assign_rows_in(store, d, s, start)
}
