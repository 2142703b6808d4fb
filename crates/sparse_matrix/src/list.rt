// The public calls whose list goes to the answer buffer: each checks the whole store first, and refuses a damaged one with 1; then its inner twin answers.
ghost use Rattle.std.specs.Prelude.{◌≡◌, []};
ghost use Rattle.table.specs.declared.Op.TheVariants as op;
ghost use Rattle.model.specs.Step.{step, result_of};
ghost use Rattle.store_head.specs.Lent.{seen, full_of};
ghost use Rattle.store_head.specs.Told.{list_told};

use listings::{column_list, row_lists};
use store_check::sound;
use store_head::{Refusal, Store};

// ITER: the sparse columns a to b-1 that hold one in row r, by rising home number.
pub fn get_row_iter(
    store: &Store,
    answers: &mut [u32],
    r: u32,
    a: u32,
    b: u32,
) -> Result<u32, Refusal>
    ensures { list_told (seen store.now) result answers.new ≡ result_of (full_of (seen store.now) answers.old) (step (op.Iter (record { r = r; a = a; b = b })) (full_of (seen store.now) answers.old)) }
{
    sound(store)?;
    row_lists::get_row_iter_in(store, answers, r, a, b)
}

// TAILONES: the tail columns that hold one in row r, rising.
pub fn query_non_zero_columns(
    store: &Store,
    answers: &mut [u32],
    r: u32,
    a: u32,
) -> Result<u32, Refusal>
    ensures { list_told (seen store.now) result answers.new ≡ result_of (full_of (seen store.now) answers.old) (step (op.TailOnes (record { r = r; a = a })) (full_of (seen store.now) answers.old)) }
{
    sound(store)?;
    row_lists::query_non_zero_columns_in(store, answers, r, a)
}

// COLONES: the rows a to b-1 that hold one in column c, rising.
pub fn get_ones_in_column(
    store: &Store,
    answers: &mut [u32],
    c: u32,
    a: u32,
    b: u32,
) -> Result<u32, Refusal>
    ensures { list_told (seen store.now) result answers.new ≡ result_of (full_of (seen store.now) answers.old) (step (op.ColOnes (record { c = c; a = a; b = b })) (full_of (seen store.now) answers.old)) }
{
    sound(store)?;
    column_list::get_ones_in_column_in(store, answers, c, a, b)
}
