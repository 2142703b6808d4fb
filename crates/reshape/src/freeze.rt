// FREEZE: the last sparse column becomes the first tail column. Its index list names every row that may have a one there.
// `inline(always)`: a store handed by reference to a function that is not inlined is laid out in memory first (docs/DECISIONS.md, "Form").
ghost use Rattle.std.specs.Prelude.{◌≡◌, true, [], suc, ◌*◌, ◌≤◌, ◌<◌, length, get_or, set};
ghost use Rattle.laws.specs.Plain.{pick};
ghost use Rattle.laws.specs.Rows.{member, take_out};
ghost use Rattle.laws.specs.Parts.{row_of};
ghost use Rattle.laws.specs.Words.{words_for};
ghost use Rattle.sparse_vec.specs.Row.{put_row};
ghost use Rattle.tail.specs.Tail.{InTail, tail_put};
ghost use Rattle.table.specs.declared.Op.TheVariants.{Freeze};
ghost use Rattle.model.specs.WellFormed.{WellFormed};
ghost use Rattle.model.specs.Step.{inner, result_of};
ghost use Rattle.store_head.specs.Lent.{seen, full_of};
ghost use Rattle.store_head.specs.Writing.{cells, SameCells};
ghost use Rattle.store_head.specs.Told.{change_told};
ghost use Rattle.store_head.specs.Refused.{refusal_of, refused_by};
ghost use Rattle.reshape.specs.Frozen.{freezing, CanTake};

use sparse_vec::Row;
use store_head::{CellsMut, Refusal, Store, places};

// How many words `h` rows of one column more have.
fn words_wanted(h: u32, n: u32) -> usize
    requires { (h ≤ 65535) × (n ≤ 65535) }
    ensures { result ≡ h * words_for (suc n) }
{
    h as usize * tail::words_for(n + 1)
}

// Takes `z` out of home row `y`, and answers whether it was there.
fn take_out(slots: &mut [u16], counts: &mut [u16], k: usize, y: usize, z: u16) -> bool
    requires { CanTake slots.old counts.old k y }
    ensures { (result ≡ member z (row_of slots.old counts.old k y)) × ((slots.new ≡ pick (member z (row_of slots.old counts.old k y)) (put_row slots.old (y * k) k (take_out z (row_of slots.old counts.old k y))) slots.old) × (counts.new ≡ pick (member z (row_of slots.old counts.old k y)) (set counts.old y (length (take_out z (row_of slots.old counts.old k y)))) counts.old)) }
{
    let row = Row {
        at: y * k,
        len: counts[y] as usize,
        cap: k,
    };
    if !sparse_vec::get(row.numbers(slots), z) {
        return false;
    }
    let len = sparse_vec::remove(slots, row, z);
    counts[y] = len as u16;
    true
}

// The first tail column of home row `y` becomes one, where the row had its one in the column.
fn put_first(words: &mut [u64], n: u32, y: usize, had: bool)
    requires { InTail words.old n y 0 }
    ensures { words.new ≡ pick had (tail_put words.old n y 0 true) words.old }
{
    if !had {
        return;
    }
    tail::put(words, n, y, 0, true);
}

// The refusal of FREEZE: 5 past the width, 6 not the last sparse column, 9 the index off, 13 too few words.
#[inline(always)]
pub fn refuse_freeze(store: &Store, c: u32) -> Result<(), Refusal>
    requires { WellFormed (seen store.now) }
    ensures { refused_by result ≡ refusal_of (inner (Freeze (freezing c)) (full_of (seen store.now) [])) }
{
    let head = store.head;
    if head.w <= c {
        return Err(Refusal::Column);
    }
    if c + 1 != head.w - head.n {
        return Err(Refusal::Side);
    }
    if !head.on {
        return Err(Refusal::Phase);
    }
    let wanted = words_wanted(head.h, head.n);
    if store.words.len() < wanted {
        return Err(Refusal::Words);
    }
    Ok(())
}

// FREEZE: "column w-n-1 joins the tail, cells kept". The tail grows by a zero column on the left; then each listed row that still has the column moves its one there.
#[inline(always)]
pub fn hint_column_dense_and_frozen_in(store: &mut CellsMut, c: u32) -> Result<(), Refusal>
    requires { WellFormed (cells store.old) }
    ensures told { change_told result (cells store.new) ≡ result_of (full_of (cells store.old) []) (inner (Freeze (freezing c)) (full_of (cells store.old) [])) }
    ensures same { SameCells store.old store.new }
{
    refuse_freeze(&store.view(), c)?;
    let head = store.head;
    let k = head.slots as usize;
    let z = permutation::home_column(store.column_homes, places::column(c)).0;
    tail::grow(store.words, head.n, head.h as usize);
    let n = head.n + 1;
    let slots = &mut *store.slots;
    let counts = &mut *store.counts;
    let words = &mut *store.words;
    for row in arraymap::get(store.starts, store.entries, z as usize) {
        let y = *row as usize;
        let had = take_out(slots, counts, k, y, z);
        put_first(words, n, y, had);
    }
    store.head.n = n;
    Ok(())
}
