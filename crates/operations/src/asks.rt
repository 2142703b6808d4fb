// The seven operations that ask the store.
ghost use Rattle.std.specs.Prelude.{◌≡◌, true};
ghost use Rattle.model.specs.WellFormed.{WellFormed};
ghost use Rattle.model.specs.Step.{inner, result_of};
ghost use Rattle.store_head.specs.Lent.{seen, full_of};
ghost use Rattle.operations.specs.Applied.{asks, form, part_at, op_told};

use crate::Told;
use listings::{column_list, row_lists};
use queries::{query, row_tail};
use store_head::{Refusal, Store};
use table::Op;

// An operation that asks a well-formed store: at most the first places of the answer buffer change.
pub fn ask(store: &Store, answers: &mut [u32], op: Op) -> Result<Told, Refusal>
    requires well_formed { WellFormed (seen store.now) }
    requires op_value { asks op ≡ true }
    ensures { op_told (form op) (part_at op (seen store.now)) (seen store.now) result answers.new ≡ result_of (full_of (seen store.now) answers.old) (inner op (full_of (seen store.now) answers.old)) }
{
    match op {
        Op::Get(p) => Ok(Told::Number(query::get_in(store, p.r, p.c)?)),
        Op::Count(p) => Ok(Told::Number(query::count_ones_in(store, p.r, p.a, p.b)?)),
        Op::Words(p) => {
            let words = row_tail::get_sub_row_in(store, p.r, p.a)?;
            Ok(Told::Words(words.len() as u32))
        }
        Op::TailOnes(p) => {
            let count = row_lists::query_non_zero_columns_in(store, answers, p.r, p.a)?;
            Ok(Told::List(count))
        }
        Op::Iter(p) => {
            let count = row_lists::get_row_iter_in(store, answers, p.r, p.a, p.b)?;
            Ok(Told::List(count))
        }
        Op::ColOnes(p) => {
            let count = column_list::get_ones_in_column_in(store, answers, p.c, p.a, p.b)?;
            Ok(Told::List(count))
        }
        Op::Size => Ok(Told::Sizes(query::size_in(store))),
        // No operation that changes the store comes here.
        _ => Ok(Told::Done),
    }
}
