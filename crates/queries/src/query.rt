// GET, COUNT and SIZE on a store that is known to be well-formed: each refuses by number, in 01's order, or answers.
// `inline(always)`: a store handed by reference to a function that is not inlined is laid out in memory first (docs/DECISIONS.md, "Form").
ghost use Rattle.std.specs.Prelude.{◌≡◌, []};
ghost use Rattle.table.specs.declared.Op.TheVariants as op;
ghost use Rattle.table.specs.Run.{ok, reply_of};
ghost use Rattle.model.specs.WellFormed.{WellFormed};
ghost use Rattle.model.specs.Step.{inner};
ghost use Rattle.store_head.specs.Lent.{seen, full_of};
ghost use Rattle.store_head.specs.Told.{number_says, sizes};

use permutation::LogicalRow;
use store_head::{Numbers, Refusal, Size, Store, places};

// SIZE: height, width and tail.
#[inline(always)]
pub fn size_in(store: &Store) -> Size
    requires { WellFormed (seen store.now) }
    ensures { ok (sizes result) ≡ reply_of (inner op.Size (full_of (seen store.now) [])) }
{
    let Numbers { h, w, n, .. } = store.head;
    Size { h, w, n }
}

// GET: the bit in row r and column c, from the row's list or from its tail words.
#[inline(always)]
pub fn get_in(store: &Store, r: u32, c: u32) -> Result<u32, Refusal>
    requires { WellFormed (seen store.now) }
    ensures { number_says result ≡ reply_of (inner (op.Get (record { r = r; c = c })) (full_of (seen store.now) [])) }
{
    if store.head.h <= r {
        return Err(Refusal::Row);
    }
    if store.head.w <= c {
        return Err(Refusal::Column);
    }
    let y = permutation::home_row(store.row_homes, LogicalRow(r));
    let edge = store.head.w - store.head.n;
    if c < edge {
        let z = permutation::home_column(store.column_homes, places::column(c));
        let row = store.row(y);
        let one = sparse_vec::get(row, z.0);
        Ok(u32::from(one))
    } else {
        let set = tail::get(store.words, store.head.n, y.0 as usize, c - edge);
        Ok(u32::from(set))
    }
}

// COUNT: how many of the sparse columns a to b-1 hold one in row r.
#[inline(always)]
pub fn count_ones_in(store: &Store, r: u32, a: u32, b: u32) -> Result<u32, Refusal>
    requires { WellFormed (seen store.now) }
    ensures { number_says result ≡ reply_of (inner (op.Count (record { r = r; a = a; b = b })) (full_of (seen store.now) [])) }
{
    if store.head.h <= r {
        return Err(Refusal::Row);
    }
    if store.head.w - store.head.n < b {
        return Err(Refusal::Side);
    }
    let y = permutation::home_row(store.row_homes, LogicalRow(r));
    let row = store.row(y);
    let ones = sparse_vec::count_in(row, store.column_logicals, a, b);
    Ok(ones as u32)
}
