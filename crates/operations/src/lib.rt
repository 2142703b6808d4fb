#![tactic(auto)]
// One call for any of the sixteen operations: `call` checks the store, `apply` is its twin for a store that is known to be well-formed.
ghost use Rattle.std.specs.Prelude.{◌≡◌, false};
ghost use Rattle.table.specs.Room.{kind, is_make};
ghost use Rattle.model.specs.WellFormed.{WellFormed};
ghost use Rattle.model.specs.Step.{inner, step, result_of};
ghost use Rattle.store_head.specs.Lent.{lent, full_of, SameSlices};
ghost use Rattle.operations.specs.Applied.{asks, form, part_at, op_told, May};

use store_head::{Refusal, Size, StoreMut};
use table::Op;

mod asks;
mod change;
pub mod refuse;

// What is told: nothing but that it is done, a number, the sizes, how many of the first answer places hold the list, or how many words row r's tail has.
#[derive(Clone, Copy, PartialEq, Eq)]
pub enum Told {
    Done,
    Number(u32),
    Sizes(Size),
    List(u32),
    Words(u32),
}

// Whether an operation is MAKE, which needs no store before it.
fn is_make(op: Op) -> bool
    ensures { result ≡ is_make (kind op) }
{
    matches!(op, Op::Make(_))
}

// Whether an operation asks and leaves the store as it is.
fn is_question(op: Op) -> bool
    ensures { result ≡ asks op }
{
    matches!(
        op,
        Op::Get(_)
            | Op::Count(_)
            | Op::Words(_)
            | Op::TailOnes(_)
            | Op::Iter(_)
            | Op::ColOnes(_)
            | Op::Size
    )
}

// Lets an operation go on a store that is well-formed, or that MAKE is to make; refuses any other with 1.
fn guard(store: &StoreMut, op: Op) -> Result<(), Refusal>
    ensures { May op (lent store.now) result }
{
    if is_make(op) {
        return Ok(());
    }
    store_check::whole(store)
}

// Any operation on a store that is well-formed, or that MAKE is to make.
pub fn apply(store: &mut StoreMut, answers: &mut [u32], op: Op) -> Result<Told, Refusal>
    requires { is_make (kind op) ≡ false → WellFormed (lent store.old) }
    ensures told { op_told (form op) (part_at op (lent store.old)) (lent store.new) result answers.new ≡ result_of (full_of (lent store.old) answers.old) (inner op (full_of (lent store.old) answers.old)) }
    ensures same { SameSlices store.old store.new }
{
    if is_question(op) {
        return asks::ask(&store.view(), answers, op);
    }
    change::change(store, op)?;
    Ok(Told::Done)
}

// Any operation on any store and any numbers: it checks the store itself.
pub fn call(store: &mut StoreMut, answers: &mut [u32], op: Op) -> Result<Told, Refusal>
    ensures told { op_told (form op) (part_at op (lent store.old)) (lent store.new) result answers.new ≡ result_of (full_of (lent store.old) answers.old) (step op (full_of (lent store.old) answers.old)) }
    ensures same { SameSlices store.old store.new }
{
    match guard(store, op) {
        Ok(()) => apply(store, answers, op),
        Err(why) => Err(why),
    }
}
