// The list of a column: COLONES, on a store that is known to be well-formed. The list is counted first: where it is longer than the answer
// buffer nothing is written.
// `inline(always)`: a store handed by reference to a function that is not inlined is laid out in memory first (docs/DECISIONS.md, "Form").
ghost use Rattle.std.specs.Prelude.{◌≡◌};
ghost use Rattle.table.specs.declared.Op.TheVariants.{ColOnes};
ghost use Rattle.model.specs.WellFormed.{WellFormed};
ghost use Rattle.model.specs.Step.{inner, result_of};
ghost use Rattle.store_head.specs.Lent.{seen, full_of};
ghost use Rattle.store_head.specs.Told.{list_told};
ghost use Rattle.store_head.specs.Refused.{refused_by, refusal_of};

use store_head::{Refusal, Store, places};

// Whether COLONES is refused: 5 past the width, 6 in the tail, 9 the index off, 11 a spent column, 15 as for ITER.
#[inline(always)]
pub fn refuse_col_ones(
    store: &Store,
    answers: &[u32],
    c: u32,
    a: u32,
    b: u32,
) -> Result<(), Refusal>
    requires { WellFormed (seen store.now) }
    ensures { refused_by result ≡ refusal_of (inner (ColOnes (record { c = c; a = a; b = b })) (full_of (seen store.now) answers.now)) }
{
    if store.head.w <= c {
        return Err(Refusal::Column);
    }
    if store.head.w - store.head.n <= c {
        return Err(Refusal::Side);
    }
    if !store.head.on {
        return Err(Refusal::Phase);
    }
    let z = permutation::home_column(store.column_homes, places::column(c)).0 as usize;
    if store.marks[z] != 0 {
        return Err(Refusal::Spent);
    }
    let list = arraymap::get(store.starts, store.entries, z);
    let h = store.head.h as usize;
    if answers.len() < arraymap::count_shown(list, store.row_homes, store.row_logicals, h, a, b) {
        return Err(Refusal::Answer);
    }
    Ok(())
}

// COLONES: the rows a to b-1 that hold one in column c, rising, from the index's list of the column.
#[inline(always)]
pub fn get_ones_in_column_in(
    store: &Store,
    answers: &mut [u32],
    c: u32,
    a: u32,
    b: u32,
) -> Result<u32, Refusal>
    requires { WellFormed (seen store.now) }
    ensures { list_told (seen store.now) result answers.new ≡ result_of (full_of (seen store.now) answers.old) (inner (ColOnes (record { c = c; a = a; b = b })) (full_of (seen store.now) answers.old)) }
{
    refuse_col_ones(store, answers, c, a, b)?;
    let z = permutation::home_column(store.column_homes, places::column(c)).0 as usize;
    let list = arraymap::get(store.starts, store.entries, z);
    let h = store.head.h as usize;
    let n = arraymap::show(list, store.row_homes, store.row_logicals, h, a, b, answers);
    Ok(n as u32)
}
