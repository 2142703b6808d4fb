// The lists of a row: ITER and TAILONES, on a store that is known to be well-formed. The list is counted first: where it is longer than the answer
// buffer nothing is written.
// `inline(always)`: a store handed by reference to a function that is not inlined is laid out in memory first (docs/DECISIONS.md, "Form").
ghost use Rattle.std.specs.Prelude.{◌≡◌};
ghost use Rattle.table.specs.declared.Op.TheVariants.{Iter, TailOnes};
ghost use Rattle.model.specs.WellFormed.{WellFormed};
ghost use Rattle.model.specs.Step.{inner, result_of};
ghost use Rattle.store_head.specs.Lent.{seen, full_of};
ghost use Rattle.store_head.specs.Told.{list_told};
ghost use Rattle.store_head.specs.Refused.{refused_by, refusal_of};

use permutation::LogicalRow;
use store_head::{Refusal, Store};

// Whether ITER is refused: 4 past the height, 6 where b is past the sparse columns, 15 where the list is longer than the buffer.
#[inline(always)]
pub fn refuse_iter(store: &Store, answers: &[u32], r: u32, a: u32, b: u32) -> Result<(), Refusal>
    requires { WellFormed (seen store.now) }
    ensures { refused_by result ≡ refusal_of (inner (Iter (record { r = r; a = a; b = b })) (full_of (seen store.now) answers.now)) }
{
    if store.head.h <= r {
        return Err(Refusal::Row);
    }
    if store.head.w - store.head.n < b {
        return Err(Refusal::Side);
    }
    let y = permutation::home_row(store.row_homes, LogicalRow(r));
    let row = store.row(y);
    if answers.len() < sparse_vec::count_in(row, store.column_logicals, a, b) {
        return Err(Refusal::Answer);
    }
    Ok(())
}

// ITER: the sparse columns a to b-1 that hold one in row r, by rising home number: the order of the row's list.
#[inline(always)]
pub fn get_row_iter_in(
    store: &Store,
    answers: &mut [u32],
    r: u32,
    a: u32,
    b: u32,
) -> Result<u32, Refusal>
    requires { WellFormed (seen store.now) }
    ensures { list_told (seen store.now) result answers.new ≡ result_of (full_of (seen store.now) answers.old) (inner (Iter (record { r = r; a = a; b = b })) (full_of (seen store.now) answers.old)) }
{
    refuse_iter(store, answers, r, a, b)?;
    let y = permutation::home_row(store.row_homes, LogicalRow(r));
    let row = store.row(y);
    let n = sparse_vec::walk(row, store.column_logicals, a, b, answers);
    Ok(n as u32)
}

// Whether TAILONES is refused: 4 past the height, 6 where a is not the first tail column or there is none, 15 as for ITER.
#[inline(always)]
pub fn refuse_tail_ones(store: &Store, answers: &[u32], r: u32, a: u32) -> Result<(), Refusal>
    requires { WellFormed (seen store.now) }
    ensures { refused_by result ≡ refusal_of (inner (TailOnes (record { r = r; a = a })) (full_of (seen store.now) answers.now)) }
{
    if store.head.h <= r {
        return Err(Refusal::Row);
    }
    if a != store.head.w - store.head.n {
        return Err(Refusal::Side);
    }
    if store.head.n == 0 {
        return Err(Refusal::Side);
    }
    let y = permutation::home_row(store.row_homes, LogicalRow(r)).0 as usize;
    if answers.len() < tail::count(store.words, store.head.n, y) {
        return Err(Refusal::Answer);
    }
    Ok(())
}

// TAILONES: the tail columns that hold one in row r, rising. The caller names the first of them, a.
#[inline(always)]
pub fn query_non_zero_columns_in(
    store: &Store,
    answers: &mut [u32],
    r: u32,
    a: u32,
) -> Result<u32, Refusal>
    requires { WellFormed (seen store.now) }
    ensures { list_told (seen store.now) result answers.new ≡ result_of (full_of (seen store.now) answers.old) (inner (TailOnes (record { r = r; a = a })) (full_of (seen store.now) answers.old)) }
{
    refuse_tail_ones(store, answers, r, a)?;
    let edge = store.head.w - store.head.n;
    let y = permutation::home_row(store.row_homes, LogicalRow(r)).0 as usize;
    let ones = tail::ones(store.words, store.head.n, y, edge, answers);
    Ok(ones as u32)
}
