// The calls that change the store, for a host: the new head and 0, or the head as it was and the number of the refusal, nothing changed.
ghost use Rattle.std.specs.Prelude.{[]};
ghost use Rattle.table.specs.declared.Op.TheVariants as op;
ghost use Rattle.model.specs.Step.{result_of};
ghost use Rattle.store_head.specs.Lent.{store_of, full_of};
ghost use Rattle.clatterthaw_host.specs.Crossing.{numbers_of, crossing, Crossed};

use crate::{PlainChanged, PlainHead, cross};
use store_head::{
    CellsMut, ColumnMapsMut, IndexMut, Refusal, RowMapsMut, ShapeMut, StoreMut, SumMut,
};
use table::Sizes;

// MAKE: an h by w store whose last n columns are the tail, all zero, with `per_row` slots for each row; it asks for no store before it.
#[unsafe(no_mangle)]
pub extern "C" fn clatterthaw_make(
    p: PlainHead,
    slots: &mut [u16],
    counts: &mut [u16],
    row_homes: &mut [u32],
    row_logicals: &mut [u32],
    column_homes: &mut [u16],
    column_logicals: &mut [u16],
    marks: &mut [u8],
    starts: &mut [u64],
    entries: &mut [u32],
    words: &mut [u64],
    h: u32,
    w: u32,
    n: u32,
    per_row: u32,
) -> PlainChanged
    ensures { Crossed p result (result_of (full_of (store_of (numbers_of p) slots.old counts.old row_homes.old row_logicals.old column_homes.old column_logicals.old marks.old starts.old entries.old words.old) []) (crossing p (op.Make (record { h = h; w = w; n = n; slots = per_row })) (full_of (store_of (numbers_of p) slots.old counts.old row_homes.old row_logicals.old column_homes.old column_logicals.old marks.old starts.old entries.old words.old) []))) (λ e. full_of (store_of e slots.new counts.new row_homes.new row_logicals.new column_homes.new column_logicals.new marks.new starts.new entries.new words.new) []) }
{
    let mut store = StoreMut {
        head: cross::head(p),
        slots,
        counts,
        row_homes,
        row_logicals,
        column_homes,
        column_logicals,
        marks,
        starts,
        entries,
        words,
    };
    let sizes = Sizes {
        h,
        w,
        n,
        slots: per_row,
    };
    let told = sparse_matrix::new(&mut store, sizes);
    cross::changed(p, store.head, told)
}

// SET: cell r, c becomes one, or zero where v is 0.
#[unsafe(no_mangle)]
pub extern "C" fn clatterthaw_set(
    p: PlainHead,
    slots: &mut [u16],
    counts: &mut [u16],
    row_homes: &[u32],
    row_logicals: &[u32],
    column_homes: &[u16],
    column_logicals: &[u16],
    marks: &[u8],
    starts: &[u64],
    entries: &[u32],
    words: &mut [u64],
    r: u32,
    c: u32,
    v: u8,
) -> PlainChanged
    ensures { Crossed p result (result_of (full_of (store_of (numbers_of p) slots.old counts.old row_homes.now row_logicals.now column_homes.now column_logicals.now marks.now starts.now entries.now words.old) []) (crossing p (op.Set (record { r = r; c = c; v = v })) (full_of (store_of (numbers_of p) slots.old counts.old row_homes.now row_logicals.now column_homes.now column_logicals.now marks.now starts.now entries.now words.old) []))) (λ e. full_of (store_of e slots.new counts.new row_homes.now row_logicals.now column_homes.now column_logicals.now marks.now starts.now entries.now words.new) []) }
{
    if 1 < p.on {
        return PlainChanged {
            head: p,
            no: Refusal::Damaged.number(),
        };
    }
    let mut store = CellsMut {
        head: cross::head(p),
        slots,
        counts,
        row_homes,
        row_logicals,
        column_homes,
        column_logicals,
        marks,
        starts,
        entries,
        words,
    };
    let told = sparse_matrix::set(&mut store, r, c, v);
    cross::changed(p, store.head, told)
}

// SWAPR: rows i and j are exchanged.
#[unsafe(no_mangle)]
pub extern "C" fn clatterthaw_swap_rows(
    p: PlainHead,
    slots: &[u16],
    counts: &[u16],
    row_homes: &mut [u32],
    row_logicals: &mut [u32],
    column_homes: &[u16],
    column_logicals: &[u16],
    marks: &[u8],
    starts: &[u64],
    entries: &[u32],
    words: &[u64],
    i: u32,
    j: u32,
) -> PlainChanged
    ensures { Crossed p result (result_of (full_of (store_of (numbers_of p) slots.now counts.now row_homes.old row_logicals.old column_homes.now column_logicals.now marks.now starts.now entries.now words.now) []) (crossing p (op.SwapR (record { i = i; j = j })) (full_of (store_of (numbers_of p) slots.now counts.now row_homes.old row_logicals.old column_homes.now column_logicals.now marks.now starts.now entries.now words.now) []))) (λ e. full_of (store_of e slots.now counts.now row_homes.new row_logicals.new column_homes.now column_logicals.now marks.now starts.now entries.now words.now) []) }
{
    if 1 < p.on {
        return PlainChanged {
            head: p,
            no: Refusal::Damaged.number(),
        };
    }
    let mut store = RowMapsMut {
        head: cross::head(p),
        slots,
        counts,
        row_homes,
        row_logicals,
        column_homes,
        column_logicals,
        marks,
        starts,
        entries,
        words,
    };
    let told = sparse_matrix::swap_rows(&mut store, i, j);
    cross::changed(p, store.head, told)
}

// SWAPC: columns i and j are exchanged.
#[unsafe(no_mangle)]
pub extern "C" fn clatterthaw_swap_columns(
    p: PlainHead,
    slots: &[u16],
    counts: &[u16],
    row_homes: &[u32],
    row_logicals: &[u32],
    column_homes: &mut [u16],
    column_logicals: &mut [u16],
    marks: &[u8],
    starts: &[u64],
    entries: &[u32],
    words: &[u64],
    i: u32,
    j: u32,
) -> PlainChanged
    ensures { Crossed p result (result_of (full_of (store_of (numbers_of p) slots.now counts.now row_homes.now row_logicals.now column_homes.old column_logicals.old marks.now starts.now entries.now words.now) []) (crossing p (op.SwapC (record { i = i; j = j })) (full_of (store_of (numbers_of p) slots.now counts.now row_homes.now row_logicals.now column_homes.old column_logicals.old marks.now starts.now entries.now words.now) []))) (λ e. full_of (store_of e slots.now counts.now row_homes.now row_logicals.now column_homes.new column_logicals.new marks.now starts.now entries.now words.now) []) }
{
    if 1 < p.on {
        return PlainChanged {
            head: p,
            no: Refusal::Damaged.number(),
        };
    }
    let mut store = ColumnMapsMut {
        head: cross::head(p),
        slots,
        counts,
        row_homes,
        row_logicals,
        column_homes,
        column_logicals,
        marks,
        starts,
        entries,
        words,
    };
    let told = sparse_matrix::swap_columns(&mut store, i, j);
    cross::changed(p, store.head, told)
}

// ADD: row s is added to row d.
#[unsafe(no_mangle)]
pub extern "C" fn clatterthaw_add(
    p: PlainHead,
    slots: &mut [u16],
    counts: &mut [u16],
    row_homes: &[u32],
    row_logicals: &[u32],
    column_homes: &[u16],
    column_logicals: &[u16],
    marks: &mut [u8],
    starts: &[u64],
    entries: &[u32],
    words: &mut [u64],
    d: u32,
    s: u32,
    start: u32,
) -> PlainChanged
    ensures { Crossed p result (result_of (full_of (store_of (numbers_of p) slots.old counts.old row_homes.now row_logicals.now column_homes.now column_logicals.now marks.old starts.now entries.now words.old) []) (crossing p (op.Add (record { d = d; s = s; start = start })) (full_of (store_of (numbers_of p) slots.old counts.old row_homes.now row_logicals.now column_homes.now column_logicals.now marks.old starts.now entries.now words.old) []))) (λ e. full_of (store_of e slots.new counts.new row_homes.now row_logicals.now column_homes.now column_logicals.now marks.new starts.now entries.now words.new) []) }
{
    if 1 < p.on {
        return PlainChanged {
            head: p,
            no: Refusal::Damaged.number(),
        };
    }
    let mut store = SumMut {
        head: cross::head(p),
        slots,
        counts,
        row_homes,
        row_logicals,
        column_homes,
        column_logicals,
        marks,
        starts,
        entries,
        words,
    };
    let told = sparse_matrix::add_assign_rows(&mut store, d, s, start);
    cross::changed(p, store.head, told)
}

// ON: the column index is built.
#[unsafe(no_mangle)]
pub extern "C" fn clatterthaw_on(
    p: PlainHead,
    slots: &[u16],
    counts: &[u16],
    row_homes: &[u32],
    row_logicals: &[u32],
    column_homes: &[u16],
    column_logicals: &[u16],
    marks: &mut [u8],
    starts: &mut [u64],
    entries: &mut [u32],
    words: &[u64],
) -> PlainChanged
    ensures { Crossed p result (result_of (full_of (store_of (numbers_of p) slots.now counts.now row_homes.now row_logicals.now column_homes.now column_logicals.now marks.old starts.old entries.old words.now) []) (crossing p op.On (full_of (store_of (numbers_of p) slots.now counts.now row_homes.now row_logicals.now column_homes.now column_logicals.now marks.old starts.old entries.old words.now) []))) (λ e. full_of (store_of e slots.now counts.now row_homes.now row_logicals.now column_homes.now column_logicals.now marks.new starts.new entries.new words.now) []) }
{
    if 1 < p.on {
        return PlainChanged {
            head: p,
            no: Refusal::Damaged.number(),
        };
    }
    let mut store = IndexMut {
        head: cross::head(p),
        slots,
        counts,
        row_homes,
        row_logicals,
        column_homes,
        column_logicals,
        marks,
        starts,
        entries,
        words,
    };
    let told = sparse_matrix::enable_column_access_acceleration(&mut store);
    cross::changed(p, store.head, told)
}

// OFF: the column index is dropped.
#[unsafe(no_mangle)]
pub extern "C" fn clatterthaw_off(
    p: PlainHead,
    slots: &[u16],
    counts: &[u16],
    row_homes: &[u32],
    row_logicals: &[u32],
    column_homes: &[u16],
    column_logicals: &[u16],
    marks: &mut [u8],
    starts: &mut [u64],
    entries: &mut [u32],
    words: &[u64],
) -> PlainChanged
    ensures { Crossed p result (result_of (full_of (store_of (numbers_of p) slots.now counts.now row_homes.now row_logicals.now column_homes.now column_logicals.now marks.old starts.old entries.old words.now) []) (crossing p op.Off (full_of (store_of (numbers_of p) slots.now counts.now row_homes.now row_logicals.now column_homes.now column_logicals.now marks.old starts.old entries.old words.now) []))) (λ e. full_of (store_of e slots.now counts.now row_homes.now row_logicals.now column_homes.now column_logicals.now marks.new starts.new entries.new words.now) []) }
{
    if 1 < p.on {
        return PlainChanged {
            head: p,
            no: Refusal::Damaged.number(),
        };
    }
    let mut store = IndexMut {
        head: cross::head(p),
        slots,
        counts,
        row_homes,
        row_logicals,
        column_homes,
        column_logicals,
        marks,
        starts,
        entries,
        words,
    };
    let told = sparse_matrix::disable_column_access_acceleration(&mut store);
    cross::changed(p, store.head, told)
}

// FREEZE: column c, the last sparse one, joins the tail.
#[unsafe(no_mangle)]
pub extern "C" fn clatterthaw_freeze(
    p: PlainHead,
    slots: &mut [u16],
    counts: &mut [u16],
    row_homes: &[u32],
    row_logicals: &[u32],
    column_homes: &[u16],
    column_logicals: &[u16],
    marks: &[u8],
    starts: &[u64],
    entries: &[u32],
    words: &mut [u64],
    c: u32,
) -> PlainChanged
    ensures { Crossed p result (result_of (full_of (store_of (numbers_of p) slots.old counts.old row_homes.now row_logicals.now column_homes.now column_logicals.now marks.now starts.now entries.now words.old) []) (crossing p (op.Freeze (record { c = c })) (full_of (store_of (numbers_of p) slots.old counts.old row_homes.now row_logicals.now column_homes.now column_logicals.now marks.now starts.now entries.now words.old) []))) (λ e. full_of (store_of e slots.new counts.new row_homes.now row_logicals.now column_homes.now column_logicals.now marks.now starts.now entries.now words.new) []) }
{
    if 1 < p.on {
        return PlainChanged {
            head: p,
            no: Refusal::Damaged.number(),
        };
    }
    let mut store = CellsMut {
        head: cross::head(p),
        slots,
        counts,
        row_homes,
        row_logicals,
        column_homes,
        column_logicals,
        marks,
        starts,
        entries,
        words,
    };
    let told = sparse_matrix::hint_column_dense_and_frozen(&mut store, c);
    cross::changed(p, store.head, told)
}

// RESIZE: the matrix shrinks to h by w.
#[unsafe(no_mangle)]
pub extern "C" fn clatterthaw_resize(
    p: PlainHead,
    slots: &mut [u16],
    counts: &mut [u16],
    row_homes: &mut [u32],
    row_logicals: &mut [u32],
    column_homes: &[u16],
    column_logicals: &[u16],
    marks: &[u8],
    starts: &[u64],
    entries: &[u32],
    words: &mut [u64],
    h: u32,
    w: u32,
) -> PlainChanged
    ensures { Crossed p result (result_of (full_of (store_of (numbers_of p) slots.old counts.old row_homes.old row_logicals.old column_homes.now column_logicals.now marks.now starts.now entries.now words.old) []) (crossing p (op.Resize (record { h = h; w = w })) (full_of (store_of (numbers_of p) slots.old counts.old row_homes.old row_logicals.old column_homes.now column_logicals.now marks.now starts.now entries.now words.old) []))) (λ e. full_of (store_of e slots.new counts.new row_homes.new row_logicals.new column_homes.now column_logicals.now marks.now starts.now entries.now words.new) []) }
{
    if 1 < p.on {
        return PlainChanged {
            head: p,
            no: Refusal::Damaged.number(),
        };
    }
    let mut store = ShapeMut {
        head: cross::head(p),
        slots,
        counts,
        row_homes,
        row_logicals,
        column_homes,
        column_logicals,
        marks,
        starts,
        entries,
        words,
    };
    let told = sparse_matrix::resize(&mut store, h, w);
    cross::changed(p, store.head, told)
}
