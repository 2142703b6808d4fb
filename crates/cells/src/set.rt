// SET: a one put into a row's list or taken out of it, or a bit of the tail.
// `inline(always)`: a store handed by reference to a function that is not inlined is laid out in memory first (docs/DECISIONS.md, "Form").
ghost use Rattle.std.specs.Prelude.{◌≡◌, [], ◌*◌, ◌≤◌, leb, length, set};
ghost use Rattle.laws.specs.Parts.{part, row_of};
ghost use Rattle.sparse_vec.specs.Row.{put_row};
ghost use Rattle.table.specs.declared.Op.TheVariants.{Set};
ghost use Rattle.model.specs.WellFormed.{WellFormed};
ghost use Rattle.model.specs.Change.{set_row};
ghost use Rattle.model.specs.Step.{inner, result_of};
ghost use Rattle.store_head.specs.Lent.{seen, full_of};
ghost use Rattle.store_head.specs.Writing.{cells, SameCells};
ghost use Rattle.store_head.specs.Told.{change_told};
ghost use Rattle.store_head.specs.Refused.{refusal_of, refused_by};
ghost use Rattle.cells.specs.Cells.{place, RowKept, CanSet};

use permutation::LogicalRow;
use sparse_vec::Row;
use store_head::{CellsMut, Refusal, Store, places};

// Whether the row has room for what it holds after home column `z` is put in, or taken out where `v` is false.
fn has_room(slots: &[u16], counts: &[u16], y: usize, k: usize, z: u16, v: bool) -> bool
    requires { RowKept slots.now counts.now y k }
    ensures { result ≡ leb (length (set_row v z (row_of slots.now counts.now k y))) k }
{
    if !v {
        return true;
    }
    let len = counts[y] as usize;
    if len < k {
        return true;
    }
    let row = Row {
        at: y * k,
        len,
        cap: k,
    };
    sparse_vec::get(row.numbers(slots), z)
}

// Puts `z` into the row, or takes it out, and answers how many numbers it then has.
fn change_list(slots: &mut [u16], row: Row, z: u16, v: bool) -> usize
    requires { CanSet slots.old row.at row.len row.cap z v }
    ensures { (result ≡ length (set_row v z (part slots.old row.at row.len))) × (slots.new ≡ put_row slots.old row.at row.cap (set_row v z (part slots.old row.at row.len))) }
{
    if v {
        sparse_vec::insert(slots, row, z)
    } else {
        sparse_vec::remove(slots, row, z)
    }
}

// The same for home row `y`, with its count.
fn change_row(slots: &mut [u16], counts: &mut [u16], y: usize, k: usize, z: u16, v: bool)
    requires row_kept { RowKept slots.old counts.old y k }
    requires y_len_bound { length (set_row v z (row_of slots.old counts.old k y)) ≤ k }
    ensures { (slots.new ≡ put_row slots.old (y * k) k (set_row v z (row_of slots.old counts.old k y))) × (counts.new ≡ set counts.old y (length (set_row v z (row_of slots.old counts.old k y)))) }
{
    let row = Row {
        at: y * k,
        len: counts[y] as usize,
        cap: k,
    };
    let more = change_list(slots, row, z, v);
    counts[y] = more as u16;
}

// The refusal of SET: 4 past the height, 5 past the width; of a sparse column 9 while the index is on, 12 where the row has no slot left for it.
#[inline(always)]
pub fn refuse_set(store: &Store, r: u32, c: u32, v: u8) -> Result<(), Refusal>
    requires { WellFormed (seen store.now) }
    ensures { refused_by result ≡ refusal_of (inner (Set (place r c v)) (full_of (seen store.now) [])) }
{
    let head = store.head;
    if head.h <= r {
        return Err(Refusal::Row);
    }
    if head.w <= c {
        return Err(Refusal::Column);
    }
    if head.w - head.n <= c {
        return Ok(());
    }
    if head.on {
        return Err(Refusal::Phase);
    }
    let y = permutation::home_row(store.row_homes, LogicalRow(r));
    let z = permutation::home_column(store.column_homes, places::column(c));
    if !has_room(
        store.slots,
        store.counts,
        y.0 as usize,
        head.slots as usize,
        z.0,
        v != 0,
    ) {
        return Err(Refusal::Slots);
    }
    Ok(())
}

// SET: cell `r`, `c` becomes one, or zero where `v` is 0. Refused with 4, 5, 9 or 12; a tail column only with 4 or 5.
#[inline(always)]
pub fn set_in(store: &mut CellsMut, r: u32, c: u32, v: u8) -> Result<(), Refusal>
    requires { WellFormed (cells store.old) }
    ensures told { change_told result (cells store.new) ≡ result_of (full_of (cells store.old) []) (inner (Set (place r c v)) (full_of (cells store.old) [])) }
    ensures same { SameCells store.old store.new }
{
    refuse_set(&store.view(), r, c, v)?;
    let head = store.head;
    let y = permutation::home_row(store.row_homes, LogicalRow(r)).0 as usize;
    let edge = head.w - head.n;
    if edge <= c {
        tail::put(store.words, head.n, y, c - edge, v != 0);
        return Ok(());
    }
    let z = permutation::home_column(store.column_homes, places::column(c));
    change_row(
        store.slots,
        store.counts,
        y,
        head.slots as usize,
        z.0,
        v != 0,
    );
    Ok(())
}
