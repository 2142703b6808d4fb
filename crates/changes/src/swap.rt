// SWAPR and SWAPC: only the maps change. A row or column stays at its home.
// `inline(always)`: a store handed by reference to a function that is not inlined is laid out in memory first (docs/DECISIONS.md, "Form").
ghost use Rattle.std.specs.Prelude.{◌≡◌, [], ◌≤◌};
ghost use Rattle.table.specs.declared.Op.TheVariants.{SwapR, SwapC};
ghost use Rattle.model.specs.WellFormed.{WellFormed};
ghost use Rattle.model.specs.Step.{inner, result_of};
ghost use Rattle.store_head.specs.Lent.{full_of, bare_of};
ghost use Rattle.store_head.specs.Told.{change_told};
ghost use Rattle.store_head.specs.Refused.{refusal_of, refused_by};
ghost use Rattle.store_head.specs.Writing.{row_maps, column_maps, SameRowMaps, SameColumnMaps};
ghost use Rattle.changes.specs.Changes.{two};

use permutation::LogicalRow;
use store_head::{ColumnMapsMut, Numbers, Refusal, RowMapsMut, places};

// The refusal of SWAPR: 4 where a row is past the height. It looks at the head alone.
pub fn refuse_swap_rows(head: Numbers, i: u32, j: u32) -> Result<(), Refusal>
    ensures { refused_by result ≡ refusal_of (inner (SwapR (two i j)) (full_of (bare_of head) [])) }
{
    if head.h <= i {
        return Err(Refusal::Row);
    }
    if head.h <= j {
        return Err(Refusal::Row);
    }
    Ok(())
}

// The refusal of SWAPC: 5 where a column is past the width, then 6 where one is in the tail. It looks at the head alone.
pub fn refuse_swap_columns(head: Numbers, i: u32, j: u32) -> Result<(), Refusal>
    requires { head.n ≤ head.w }
    ensures { refused_by result ≡ refusal_of (inner (SwapC (two i j)) (full_of (bare_of head) [])) }
{
    if head.w <= i {
        return Err(Refusal::Column);
    }
    if head.w <= j {
        return Err(Refusal::Column);
    }
    let edge = head.w - head.n;
    if edge <= i {
        return Err(Refusal::Side);
    }
    if edge <= j {
        return Err(Refusal::Side);
    }
    Ok(())
}

// SWAPR: rows `i` and `j` are exchanged ("i = j allowed"), or refused with 4.
#[inline(always)]
pub fn swap_rows_in(store: &mut RowMapsMut, i: u32, j: u32) -> Result<(), Refusal>
    requires { WellFormed (row_maps store.old) }
    ensures told { change_told result (row_maps store.new) ≡ result_of (full_of (row_maps store.old) []) (inner (SwapR (two i j)) (full_of (row_maps store.old) [])) }
    ensures same { SameRowMaps store.old store.new }
{
    refuse_swap_rows(store.head, i, j)?;
    permutation::swap_rows(
        store.row_homes,
        store.row_logicals,
        LogicalRow(i),
        LogicalRow(j),
    );
    Ok(())
}

// SWAPC: columns `i` and `j` are exchanged, or refused with 5 where one is past the width, then with 6 where one is in the tail.
#[inline(always)]
pub fn swap_columns_in(store: &mut ColumnMapsMut, i: u32, j: u32) -> Result<(), Refusal>
    requires { WellFormed (column_maps store.old) }
    ensures told { change_told result (column_maps store.new) ≡ result_of (full_of (column_maps store.old) []) (inner (SwapC (two i j)) (full_of (column_maps store.old) [])) }
    ensures same { SameColumnMaps store.old store.new }
{
    refuse_swap_columns(store.head, i, j)?;
    let p = places::column(i);
    let q = places::column(j);
    permutation::swap_columns(store.column_homes, store.column_logicals, p, q);
    Ok(())
}
