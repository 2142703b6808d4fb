// Whether an operation is refused, before anything is written: one decision for all sixteen, in 01's order, by the functions that the operations themselves go by.
ghost use Rattle.std.specs.Prelude.{◌≡◌, false};
ghost use Rattle.table.specs.Room.{kind, is_make};
ghost use Rattle.model.specs.WellFormed.{WellFormed};
ghost use Rattle.model.specs.Step.{inner};
ghost use Rattle.store_head.specs.Lent.{seen, full_of};
ghost use Rattle.store_head.specs.Refused.{refusal_of, refused_by};

use cells::{add, set};
use changes::{swap, switch};
use listings::{column_list, row_lists};
use making::make;
use queries::{query, row_tail};
use reshape::{freeze, resize};
use store_head::{Refusal, Store};
use table::Op;

// Refuses what `op` would be refused with, and changes nothing.
pub fn refusal(store: &Store, answers: &[u32], op: Op) -> Result<(), Refusal>
    requires { is_make (kind op) ≡ false → WellFormed (seen store.now) }
    ensures { refused_by result ≡ refusal_of (inner op (full_of (seen store.now) answers.now)) }
{
    match op {
        Op::Make(p) => make::refuse_make(store, p),
        Op::Set(p) => set::refuse_set(store, p.r, p.c, p.v),
        Op::SwapR(p) => swap::refuse_swap_rows(store.head, p.i, p.j),
        Op::SwapC(p) => swap::refuse_swap_columns(store.head, p.i, p.j),
        Op::Add(p) => add::refuse_add(store, p.d, p.s, p.start),
        Op::On => switch::refuse_on(store),
        Op::Freeze(p) => freeze::refuse_freeze(store, p.c),
        Op::Resize(p) => resize::refuse_resize(store.head, p.h, p.w),
        Op::Get(p) => {
            query::get_in(store, p.r, p.c)?;
            Ok(())
        }
        Op::Count(p) => {
            query::count_ones_in(store, p.r, p.a, p.b)?;
            Ok(())
        }
        Op::Words(p) => {
            row_tail::get_sub_row_in(store, p.r, p.a)?;
            Ok(())
        }
        Op::TailOnes(p) => row_lists::refuse_tail_ones(store, answers, p.r, p.a),
        Op::Iter(p) => row_lists::refuse_iter(store, answers, p.r, p.a, p.b),
        Op::ColOnes(p) => column_list::refuse_col_ones(store, answers, p.c, p.a, p.b),
        Op::Off | Op::Size => Ok(()),
    }
}
