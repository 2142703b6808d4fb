// RESIZE: "first h rows and w columns stay", by logical number. Each kept row is brought home first, so that the rows that go lie behind those that stay.
// `inline(always)`: a store handed by reference to a function that is not inlined is laid out in memory first (docs/DECISIONS.md, "Form").
ghost use Rattle.std.specs.Prelude.{◌≡◌, false, ◌&&◌, [], ◌-◌, ◌*◌, ◌≤◌, ◌<◌, ltb};
ghost use Rattle.laws.specs.Words.{words_for};
ghost use Rattle.sparse_vec.specs.Row.{kept_below};
ghost use Rattle.permutation.specs.Maps.{swapped};
ghost use Rattle.lent.specs.Stretch.{Apart};
ghost use Rattle.table.specs.declared.Op.TheVariants.{Resize};
ghost use Rattle.model.specs.Store.{row};
ghost use Rattle.model.specs.WellFormed.{WellFormed};
ghost use Rattle.model.specs.Change.{with_row, exchanged, bring_home, brought_home, drop_rows, drop_columns};
ghost use Rattle.model.specs.Step.{inner, result_of};
ghost use Rattle.store_head.specs.Lent.{full_of, bare_of};
ghost use Rattle.store_head.specs.Writing.{shape, SameShape};
ghost use Rattle.store_head.specs.Told.{change_told};
ghost use Rattle.store_head.specs.Refused.{refusal_of, refused_by};
ghost use Rattle.reshape.specs.Resized.{resizing, CanTrade};

use permutation::{HomeRow, LogicalRow};
use sparse_vec::Row;
use store_head::{Numbers, Refusal, ShapeMut};

// Whether the last columns that go would take a part of the tail and leave a part: "0 < columns dropped < n".
fn splits(w: u32, n: u32, to: u32) -> bool
    requires { to ≤ w }
    ensures { result ≡ ltb 0 (w - to) && ltb (w - to) n }
{
    let gone = w - to;
    if gone == 0 {
        return false;
    }
    gone < n
}

// The lists of home rows `y` and `x`, of `k` places each, change places, and their counts.
fn trade_lists(slots: &mut [u16], counts: &mut [u16], k: usize, y: usize, x: usize)
    requires { CanTrade slots.old counts.old k y x }
    ensures { (slots.new ≡ exchanged slots.old (y * k) (x * k) k) × (counts.new ≡ swapped counts.old y x) }
{
    lent::exchange(slots, y * k, x * k, k);
    let n = counts[y];
    counts[y] = counts[x];
    counts[x] = n;
}

// The tail words of home rows `y` and `x` change places.
fn trade_words(words: &mut [u64], n: u32, y: usize, x: usize)
    requires { Apart words.old (y * words_for n) (x * words_for n) (words_for n) }
    ensures { words.new ≡ exchanged words.old (y * words_for n) (x * words_for n) (words_for n) }
{
    let k = tail::words_for(n);
    lent::exchange(words, y * k, x * k, k);
}

// The refusal of RESIZE: 8 where it grows or splits the tail, 9 while the index is on. It looks at the head alone.
pub fn refuse_resize(head: Numbers, h: u32, w: u32) -> Result<(), Refusal>
    ensures { refused_by result ≡ refusal_of (inner (Resize (resizing h w)) (full_of (bare_of head) [])) }
{
    if head.h < h {
        return Err(Refusal::Shrink);
    }
    if head.w < w {
        return Err(Refusal::Shrink);
    }
    if splits(head.w, head.n, w) {
        return Err(Refusal::Shrink);
    }
    if head.on {
        return Err(Refusal::Phase);
    }
    Ok(())
}

// Row `r` changes places with what is kept in home `r`.
#[inline(always)]
fn bring_home(store: &mut ShapeMut, r: u32)
    requires well_formed { WellFormed (shape store.old) }
    requires r_low { r < store.old.head.h }
    ensures told { shape store.new ≡ bring_home (shape store.old) r }
    ensures same { SameShape store.old store.new }
{
    let head = store.head;
    let home = store.home_row(LogicalRow(r));
    let y = home.0 as usize;
    let x = r as usize;
    if y == x {
        return;
    }
    trade_lists(store.slots, store.counts, head.slots as usize, y, x);
    trade_words(store.words, head.n, y, x);
    permutation::swap_home_rows(store.row_homes, store.row_logicals, home, HomeRow(r));
}

// The rows 0 to k-1 are brought home.
#[inline(always)]
fn bring_all(store: &mut ShapeMut, k: u32)
    requires well_formed { WellFormed (shape store.old) }
    requires off { store.old.head.on ≡ false }
    requires k_low { k ≤ store.old.head.h }
    ensures told { shape store.new ≡ brought_home k (shape store.old) }
    ensures same { SameShape store.old store.new }
{
    for r in 0..k {
        bring_home(store, r);
    }
}

// The rows from home `k` on are cleared.
#[inline(always)]
fn drop_rows(store: &mut ShapeMut, k: u32)
    requires well_formed { WellFormed (shape store.old) }
    requires k_low { k ≤ store.old.head.h }
    ensures told { shape store.new ≡ drop_rows k (shape store.old) }
    ensures same { SameShape store.old store.new }
{
    let head = store.head;
    let from = k as usize;
    let to = head.h as usize;
    let cap = head.slots as usize;
    let size = tail::words_for(head.n);
    lent::clear(store.words, from * size, to * size);
    lent::clear(store.slots, from * cap, to * cap);
    lent::clear(store.counts, from, to);
    lent::clear(store.row_homes, from, to);
    lent::clear(store.row_logicals, from, to);
    store.head.h = k;
}

// Home row `y` keeps of its list the columns whose logical numbers are below `w`.
#[inline(always)]
fn keep_row(store: &mut ShapeMut, y: usize, w: u32)
    requires well_formed { WellFormed (shape store.old) }
    requires y_low { y < store.old.head.h }
    ensures told { shape store.new ≡ with_row (shape store.old) y (kept_below store.old.column_logicals.now w (row (shape store.old) y)) }
    ensures same { SameShape store.old store.new }
{
    let k = store.head.slots as usize;
    let row = Row {
        at: y * k,
        len: store.counts[y] as usize,
        cap: k,
    };
    let slots = &mut *store.slots;
    let kept = sparse_vec::retain(slots, row, store.column_logicals, w);
    store.counts[y] = kept as u16;
}

// Every row keeps the columns below `w`, and the whole tail goes.
#[inline(always)]
fn drop_columns(store: &mut ShapeMut, w: u32)
    requires well_formed { WellFormed (shape store.old) }
    requires off { store.old.head.on ≡ false }
    ensures told { shape store.new ≡ drop_columns w (shape store.old) }
    ensures same { SameShape store.old store.new }
{
    let head = store.head;
    let h = head.h as usize;
    for y in 0..h {
        keep_row(store, y, w);
    }
    lent::clear(store.words, 0, h * tail::words_for(head.n));
    store.head = Numbers { w: w, n: 0, ..head };
}

// RESIZE: "first h rows and w columns stay; n stays if w is equal, else 0".
#[inline(always)]
pub fn resize_in(store: &mut ShapeMut, h: u32, w: u32) -> Result<(), Refusal>
    requires { WellFormed (shape store.old) }
    ensures told { change_told result (shape store.new) ≡ result_of (full_of (shape store.old) []) (inner (Resize (resizing h w)) (full_of (shape store.old) [])) }
    ensures same { SameShape store.old store.new }
{
    let head = store.head;
    refuse_resize(head, h, w)?;
    bring_all(store, h);
    drop_rows(store, h);
    if w != head.w {
        drop_columns(store, w);
    }
    Ok(())
}
