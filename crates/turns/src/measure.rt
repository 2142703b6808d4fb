// How long the line of an operation's answer will be, before anything is done or written: "It stops before the first record whose line would not fit
// whole, that record leaving no trace" (01).
ghost use Rattle.std.specs.Prelude.{◌≡◌, ◌≤◌, leb, length};
ghost use Rattle.table.specs.declared.Op.TheVariants.{Iter, TailOnes, ColOnes};
ghost use Rattle.table.specs.Run.{reply_of};
ghost use Rattle.model.specs.WellFormed.{WellFormed};
ghost use Rattle.model.specs.Step.{inner};
ghost use Rattle.store_head.specs.Lent.{seen, lent, full_of};
ghost use Rattle.store_head.specs.Refused.{refusal_of};
ghost use Rattle.lines.specs.Line.{line_long};
ghost use Rattle.operations.specs.Applied.{form};
ghost use Rattle.turns.specs.Said.{long_by, most_long};

use operations::refuse;
use permutation::LogicalRow;
use queries::{query, row_tail};
use store_head::{Refusal, Store, StoreMut, places};
use table::{ColumnRange, Op, RowRange, RowTail};

// The line of ITER, where nothing refuses it.
fn iter_line(store: &Store, answers: &[u32], p: RowRange) -> usize
    requires well_formed { WellFormed (seen store.now) }
    requires value { 0 ≡ refusal_of (inner (Iter p) (full_of (seen store.now) answers.now)) }
    ensures { result ≡ line_long (reply_of (inner (Iter p) (full_of (seen store.now) answers.now))) }
{
    let y = permutation::home_row(store.row_homes, LogicalRow(p.r));
    let row = store.row(y);
    lengths::row_length(row, store.column_logicals, p.a, p.b)
}

// The line of TAILONES, where nothing refuses it.
fn tail_line(store: &Store, answers: &[u32], p: RowTail) -> usize
    requires well_formed { WellFormed (seen store.now) }
    requires value { 0 ≡ refusal_of (inner (TailOnes p) (full_of (seen store.now) answers.now)) }
    ensures { result ≡ line_long (reply_of (inner (TailOnes p) (full_of (seen store.now) answers.now))) }
{
    let y = permutation::home_row(store.row_homes, LogicalRow(p.r)).0 as usize;
    lengths::tail_length(store.words, store.head.n, y, p.a)
}

// The line of COLONES, where nothing refuses it.
fn column_line(store: &Store, answers: &[u32], p: ColumnRange) -> usize
    requires well_formed { WellFormed (seen store.now) }
    requires value { 0 ≡ refusal_of (inner (ColOnes p) (full_of (seen store.now) answers.now)) }
    ensures { result ≡ line_long (reply_of (inner (ColOnes p) (full_of (seen store.now) answers.now))) }
{
    let z = permutation::home_column(store.column_homes, places::column(p.c)).0 as usize;
    let list = arraymap::get(store.starts, store.entries, z);
    let h = store.head.h as usize;
    lengths::column_length(list, store.row_homes, store.row_logicals, h, p.a, p.b)
}

// The line of an operation that nothing refuses; what refuses any other.
fn answer_length(store: &Store, answers: &[u32], op: Op) -> Result<usize, Refusal>
    requires { WellFormed (seen store.now) }
    ensures { long_by result ≡ line_long (reply_of (inner op (full_of (seen store.now) answers.now))) }
{
    refuse::refusal(store, answers, op)?;
    match op {
        Op::Get(p) => Ok(lines::number_length(query::get_in(store, p.r, p.c)?)),
        Op::Count(p) => {
            let n = query::count_ones_in(store, p.r, p.a, p.b)?;
            Ok(lines::number_length(n))
        }
        Op::Words(p) => {
            let words = row_tail::get_sub_row_in(store, p.r, p.a)?;
            Ok(lines::list_length(words))
        }
        Op::TailOnes(p) => Ok(tail_line(store, answers, p)),
        Op::Iter(p) => Ok(iter_line(store, answers, p)),
        Op::ColOnes(p) => Ok(column_line(store, answers, p)),
        Op::Size => Ok(lines::three_length(store.head.h, store.head.w, store.head.n)),
        // What changes the store answers `ok` alone.
        _ => Ok(3),
    }
}

// The line of any operation, refused or not.
fn line_length(store: &Store, answers: &[u32], op: Op) -> usize
    requires { WellFormed (seen store.now) }
    ensures { result ≡ line_long (reply_of (inner op (full_of (seen store.now) answers.now))) }
{
    match answer_length(store, answers, op) {
        Ok(long) => long,
        Err(why) => lines::no_length(why.number()),
    }
}

// The longest line that an operation can have, by what it answers: known without a look at the store.
fn most_long(op: Op, answers: &[u32]) -> usize
    ensures { result ≡ most_long (form op) (length answers.now) }
{
    match op {
        Op::Get(_) | Op::Count(_) => 9,
        Op::Words(_) => 21507,
        Op::TailOnes(_) | Op::Iter(_) | Op::ColOnes(_) => 6 + answers.len() * 6,
        Op::Size => 21,
        _ => 6,
    }
}

// Whether the line of an operation has room. Where its longest one has, nothing is measured: the store is asked once, by the operation itself. Only what is
// measured takes a view of the store: one for every record costs as much as a cheap operation does.
pub fn has_room(store: &StoreMut, answers: &[u32], op: Op, room: usize) -> bool
    requires { WellFormed (lent store.now) }
    ensures { result ≡ leb (line_long (reply_of (inner op (full_of (lent store.now) answers.now)))) room }
{
    most_long(op, answers) <= room || line_length(&store.view(), answers, op) <= room
}
