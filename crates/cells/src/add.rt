// ADD: row d becomes the sum of rows d and s over bits. Nothing is written before every refusal is decided.
// `inline(always)`: a store handed by reference to a function that is not inlined is laid out in memory first (docs/DECISIONS.md, "Form").
ghost use Rattle.std.specs.Prelude.{◌≡◌, not, ◌&&◌, [], ◌*◌, ◌<◌, eqb, length, get_or, set};
ghost use Rattle.laws.specs.Plain.{pick};
ghost use Rattle.sparse_vec.specs.Row.{put_row};
ghost use Rattle.table.specs.declared.Op.TheVariants.{Add};
ghost use Rattle.model.specs.WellFormed.{WellFormed};
ghost use Rattle.model.specs.Step.{inner, result_of};
ghost use Rattle.store_head.specs.Lent.{seen, full_of};
ghost use Rattle.store_head.specs.Writing.{sums, SameSum};
ghost use Rattle.store_head.specs.Told.{change_told};
ghost use Rattle.store_head.specs.Refused.{refusal_of, refused_by};
ghost use Rattle.cells.specs.Added.{adding, CanSum, CanAddLists, CanSpend, sum_of_rows, not_one, sum_refused};

use permutation::LogicalRow;
use sparse_vec::Row;
use store_head::{Refusal, Store, SumMut};

// Whether a start is neither 0 nor the first tail column.
fn aside(start: u32, edge: u32) -> bool
    ensures { result ≡ not (eqb start 0) && not (eqb start edge) }
{
    if start == 0 {
        return false;
    }
    start != edge
}

// Whether the index is on, and row `x` lists not exactly one number, or one that row `y` lacks.
fn not_one(slots: &[u16], counts: &[u16], on: bool, k: usize, y: usize, x: usize) -> bool
    requires { CanSum slots.now counts.now k y x }
    ensures { result ≡ not_one on slots.now counts.now k y x }
{
    if !on {
        return false;
    }
    if counts[x] as usize != 1 {
        return true;
    }
    let at = x * k;
    let z = slots[at];
    let to = Row {
        at: y * k,
        len: counts[y] as usize,
        cap: k,
    };
    !sparse_vec::get(to.numbers(slots), z)
}

// The refusal of a sum of rows `y` and `x`: 10, then 12.
fn refuse_sum(
    slots: &[u16],
    counts: &[u16],
    on: bool,
    k: usize,
    y: usize,
    x: usize,
) -> Result<(), Refusal>
    requires { CanSum slots.now counts.now k y x }
    ensures { refused_by result ≡ sum_refused on slots.now counts.now k y x }
{
    if not_one(slots, counts, on, k, y, x) {
        return Err(Refusal::Single);
    }
    let to = Row {
        at: y * k,
        len: counts[y] as usize,
        cap: k,
    };
    let from = Row {
        at: x * k,
        len: counts[x] as usize,
        cap: k,
    };
    if !sparse_vec::sum_fits(slots, to, from) {
        return Err(Refusal::Slots);
    }
    Ok(())
}

// The one number of a row is found at its first place: its mark becomes spent.
fn spend(slots: &[u16], marks: &mut [u8], all: bool, on: bool, k: usize, x: usize)
    requires { CanSpend slots.now marks.old all on k x }
    ensures { marks.new ≡ pick all (pick on (set marks.old (get_or slots.now (x * k) 0) 1) marks.old) marks.old }
{
    if !all {
        return;
    }
    if !on {
        return;
    }
    let z = slots[x * k] as usize;
    marks[z] = 1;
}

// Row `y` becomes the sum of rows `y` and `x`, where `all` columns are added.
fn add_lists(slots: &mut [u16], counts: &mut [u16], all: bool, k: usize, y: usize, x: usize)
    requires { CanAddLists slots.old counts.old all k y x }
    ensures { (slots.new ≡ pick all (put_row slots.old (y * k) k (sum_of_rows slots.old counts.old k y x)) slots.old) × (counts.new ≡ pick all (set counts.old y (length (sum_of_rows slots.old counts.old k y x))) counts.old) }
{
    if !all {
        return;
    }
    let to = Row {
        at: y * k,
        len: counts[y] as usize,
        cap: k,
    };
    let from = Row {
        at: x * k,
        len: counts[x] as usize,
        cap: k,
    };
    let Some(len) = sparse_vec::add_assign(slots, to, from) else {
        return;
    };
    counts[y] = len as u16;
}

// The refusal of ADD: 4 a row past the height, 6 a start between, 7 the same row, then those of the sum.
#[inline(always)]
pub fn refuse_add(store: &Store, d: u32, s: u32, start: u32) -> Result<(), Refusal>
    requires { WellFormed (seen store.now) }
    ensures { refused_by result ≡ refusal_of (inner (Add (adding d s start)) (full_of (seen store.now) [])) }
{
    let head = store.head;
    if head.h <= d {
        return Err(Refusal::Row);
    }
    if head.h <= s {
        return Err(Refusal::Row);
    }
    if aside(start, head.w - head.n) {
        return Err(Refusal::Side);
    }
    if d == s {
        return Err(Refusal::Same);
    }
    if start != 0 {
        return Ok(());
    }
    let y = permutation::home_row(store.row_homes, LogicalRow(d)).0 as usize;
    let x = permutation::home_row(store.row_homes, LogicalRow(s)).0 as usize;
    refuse_sum(
        store.slots,
        store.counts,
        head.on,
        head.slots as usize,
        y,
        x,
    )
}

// ADD: "row d xor row s: start 0 all columns, start w-n tail only", with the cancelled column's mark spent where the index is on.
#[inline(always)]
pub fn add_assign_rows_in(store: &mut SumMut, d: u32, s: u32, start: u32) -> Result<(), Refusal>
    requires { WellFormed (sums store.old) }
    ensures told { change_told result (sums store.new) ≡ result_of (full_of (sums store.old) []) (inner (Add (adding d s start)) (full_of (sums store.old) [])) }
    ensures same { SameSum store.old store.new }
{
    refuse_add(&store.view(), d, s, start)?;
    let head = store.head;
    let y = permutation::home_row(store.row_homes, LogicalRow(d)).0 as usize;
    let x = permutation::home_row(store.row_homes, LogicalRow(s)).0 as usize;
    let k = head.slots as usize;
    let all = start == 0;
    let slots = &mut *store.slots;
    let marks = &mut *store.marks;
    spend(slots, marks, all, head.on, k, x);
    add_lists(store.slots, store.counts, all, k, y, x);
    tail::xor_rows(store.words, tail::words_for(head.n), y, x);
    Ok(())
}
