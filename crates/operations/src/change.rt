// The nine operations that change the store.
ghost use Rattle.std.specs.Prelude.{◌≡◌, false, []};
ghost use Rattle.table.specs.Room.{kind, is_make};
ghost use Rattle.model.specs.WellFormed.{WellFormed};
ghost use Rattle.model.specs.Step.{inner, result_of};
ghost use Rattle.store_head.specs.Lent.{lent, store_of, full_of, SameSlices};
ghost use Rattle.store_head.specs.Told.{change_told};
ghost use Rattle.operations.specs.Applied.{asks};

use cells::{add, set};
use changes::{swap, switch};
use making::make;
use reshape::{freeze, resize};
use store_head::{
    CellsMut, ColumnMapsMut, IndexMut, Numbers, Refusal, RowMapsMut, ShapeMut, StoreMut, SumMut,
};
use table::Op;

// The same over the store's parts: each kind of change is lent those that it writes, and answers with the head that it leaves.
// It takes the slices one by one, since the borrow checker's proofs do not cover a kind's struct made of a `&mut StoreMut`, nor that store's head written after it.
fn change_parts(
    head: Numbers,
    slots: &mut [u16],
    counts: &mut [u16],
    row_homes: &mut [u32],
    row_logicals: &mut [u32],
    column_homes: &mut [u16],
    column_logicals: &mut [u16],
    marks: &mut [u8],
    starts: &mut [u64],
    entries: &mut [u32],
    words: &mut [u64],
    op: Op,
) -> (Numbers, Result<(), Refusal>)
    requires well_formed { is_make (kind op) ≡ false → WellFormed (store_of head slots.old counts.old row_homes.old row_logicals.old column_homes.old column_logicals.old marks.old starts.old entries.old words.old) }
    requires op_value { asks op ≡ false }
    ensures { change_told result.1 (store_of result.0 slots.new counts.new row_homes.new row_logicals.new column_homes.new column_logicals.new marks.new starts.new entries.new words.new) ≡ result_of (full_of (store_of head slots.old counts.old row_homes.old row_logicals.old column_homes.old column_logicals.old marks.old starts.old entries.old words.old) []) (inner op (full_of (store_of head slots.old counts.old row_homes.old row_logicals.old column_homes.old column_logicals.old marks.old starts.old entries.old words.old) [])) }
{
    match op {
        Op::Make(p) => {
            let mut part = StoreMut {
                head,
                slots,
                counts,
                row_homes,
                row_logicals,
                column_homes,
                column_logicals,
                marks,
                starts,
                entries,
                words,
            };
            let told = make::new(&mut part, p);
            (part.head, told)
        }
        Op::Set(p) => {
            let mut part = CellsMut {
                head,
                slots,
                counts,
                row_homes,
                row_logicals,
                column_homes,
                column_logicals,
                marks,
                starts,
                entries,
                words,
            };
            let told = set::set_in(&mut part, p.r, p.c, p.v);
            (part.head, told)
        }
        Op::SwapR(p) => {
            let mut part = RowMapsMut {
                head,
                slots,
                counts,
                row_homes,
                row_logicals,
                column_homes,
                column_logicals,
                marks,
                starts,
                entries,
                words,
            };
            let told = swap::swap_rows_in(&mut part, p.i, p.j);
            (part.head, told)
        }
        Op::SwapC(p) => {
            let mut part = ColumnMapsMut {
                head,
                slots,
                counts,
                row_homes,
                row_logicals,
                column_homes,
                column_logicals,
                marks,
                starts,
                entries,
                words,
            };
            let told = swap::swap_columns_in(&mut part, p.i, p.j);
            (part.head, told)
        }
        Op::Add(p) => {
            let mut part = SumMut {
                head,
                slots,
                counts,
                row_homes,
                row_logicals,
                column_homes,
                column_logicals,
                marks,
                starts,
                entries,
                words,
            };
            let told = add::add_assign_rows_in(&mut part, p.d, p.s, p.start);
            (part.head, told)
        }
        Op::On => {
            let mut part = IndexMut {
                head,
                slots,
                counts,
                row_homes,
                row_logicals,
                column_homes,
                column_logicals,
                marks,
                starts,
                entries,
                words,
            };
            let told = switch::enable_column_access_acceleration_in(&mut part);
            (part.head, told)
        }
        Op::Off => {
            let mut part = IndexMut {
                head,
                slots,
                counts,
                row_homes,
                row_logicals,
                column_homes,
                column_logicals,
                marks,
                starts,
                entries,
                words,
            };
            let told = switch::disable_column_access_acceleration_in(&mut part);
            (part.head, told)
        }
        Op::Freeze(p) => {
            let mut part = CellsMut {
                head,
                slots,
                counts,
                row_homes,
                row_logicals,
                column_homes,
                column_logicals,
                marks,
                starts,
                entries,
                words,
            };
            let told = freeze::hint_column_dense_and_frozen_in(&mut part, p.c);
            (part.head, told)
        }
        Op::Resize(p) => {
            let mut part = ShapeMut {
                head,
                slots,
                counts,
                row_homes,
                row_logicals,
                column_homes,
                column_logicals,
                marks,
                starts,
                entries,
                words,
            };
            let told = resize::resize_in(&mut part, p.h, p.w);
            (part.head, told)
        }
        // No operation that asks comes here.
        _ => (head, Ok(())),
    }
}

// An operation that changes the store, which is well-formed, or which MAKE is to make.
pub fn change(store: &mut StoreMut, op: Op) -> Result<(), Refusal>
    requires well_formed { is_make (kind op) ≡ false → WellFormed (lent store.old) }
    requires op_value { asks op ≡ false }
    ensures told { change_told result (lent store.new) ≡ result_of (full_of (lent store.old) []) (inner op (full_of (lent store.old) [])) }
    ensures same { SameSlices store.old store.new }
{
    let (head, told) = change_parts(
        store.head,
        store.slots,
        store.counts,
        store.row_homes,
        store.row_logicals,
        store.column_homes,
        store.column_logicals,
        store.marks,
        store.starts,
        store.entries,
        store.words,
        op,
    );
    store.head = head;
    told
}
