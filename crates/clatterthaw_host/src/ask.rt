// The calls that ask the store, for a host: the answer and 0, or the number of the refusal.
ghost use Rattle.std.specs.Prelude.{◌≡◌, [], ◌*◌, get_or};
ghost use Rattle.laws.specs.Words.{words_for};
ghost use Rattle.table.specs.declared.Op.TheVariants as op;
ghost use Rattle.table.specs.Run.{reply_of};
ghost use Rattle.model.specs.Step.{result_of};
ghost use Rattle.store_head.specs.Lent.{store_of, full_of};
ghost use Rattle.clatterthaw_host.specs.Crossing.{numbers_of, crossing, number_by, size_by, list_by, words_by};

use crate::{PlainHead, PlainList, PlainNumber, PlainSize, PlainWords, cross};
use store_head::{Refusal, Store};

// SIZE: height, width and tail.
#[unsafe(no_mangle)]
pub extern "C" fn clatterthaw_size(
    p: PlainHead,
    slots: &[u16],
    counts: &[u16],
    row_homes: &[u32],
    row_logicals: &[u32],
    column_homes: &[u16],
    column_logicals: &[u16],
    marks: &[u8],
    starts: &[u64],
    entries: &[u32],
    words: &[u64],
) -> PlainSize
    ensures { result ≡ size_by (reply_of (crossing p op.Size (full_of (store_of (numbers_of p) slots.now counts.now row_homes.now row_logicals.now column_homes.now column_logicals.now marks.now starts.now entries.now words.now) []))) }
{
    if 1 < p.on {
        return PlainSize {
            no: Refusal::Damaged.number(),
            h: 0,
            w: 0,
            n: 0,
        };
    }
    let store = Store {
        head: cross::head(p),
        slots,
        counts,
        row_homes,
        row_logicals,
        column_homes,
        column_logicals,
        marks,
        starts,
        entries,
        words,
    };
    cross::size(sparse_matrix::size(&store))
}

// GET: the bit in row r and column c.
#[unsafe(no_mangle)]
pub extern "C" fn clatterthaw_get(
    p: PlainHead,
    slots: &[u16],
    counts: &[u16],
    row_homes: &[u32],
    row_logicals: &[u32],
    column_homes: &[u16],
    column_logicals: &[u16],
    marks: &[u8],
    starts: &[u64],
    entries: &[u32],
    words: &[u64],
    r: u32,
    c: u32,
) -> PlainNumber
    ensures { result ≡ number_by (reply_of (crossing p (op.Get (record { r = r; c = c })) (full_of (store_of (numbers_of p) slots.now counts.now row_homes.now row_logicals.now column_homes.now column_logicals.now marks.now starts.now entries.now words.now) []))) }
{
    if 1 < p.on {
        return PlainNumber {
            no: Refusal::Damaged.number(),
            value: 0,
        };
    }
    let store = Store {
        head: cross::head(p),
        slots,
        counts,
        row_homes,
        row_logicals,
        column_homes,
        column_logicals,
        marks,
        starts,
        entries,
        words,
    };
    cross::number(sparse_matrix::get(&store, r, c))
}

// COUNT: how many of the sparse columns a to b-1 hold one in row r.
#[unsafe(no_mangle)]
pub extern "C" fn clatterthaw_count(
    p: PlainHead,
    slots: &[u16],
    counts: &[u16],
    row_homes: &[u32],
    row_logicals: &[u32],
    column_homes: &[u16],
    column_logicals: &[u16],
    marks: &[u8],
    starts: &[u64],
    entries: &[u32],
    words: &[u64],
    r: u32,
    a: u32,
    b: u32,
) -> PlainNumber
    ensures { result ≡ number_by (reply_of (crossing p (op.Count (record { r = r; a = a; b = b })) (full_of (store_of (numbers_of p) slots.now counts.now row_homes.now row_logicals.now column_homes.now column_logicals.now marks.now starts.now entries.now words.now) []))) }
{
    if 1 < p.on {
        return PlainNumber {
            no: Refusal::Damaged.number(),
            value: 0,
        };
    }
    let store = Store {
        head: cross::head(p),
        slots,
        counts,
        row_homes,
        row_logicals,
        column_homes,
        column_logicals,
        marks,
        starts,
        entries,
        words,
    };
    cross::number(sparse_matrix::count_ones(&store, r, a, b))
}

// ITER: the columns a to b-1 that hold one in row r, by rising home number, in the first answer places.
#[unsafe(no_mangle)]
pub extern "C" fn clatterthaw_iter(
    p: PlainHead,
    slots: &[u16],
    counts: &[u16],
    row_homes: &[u32],
    row_logicals: &[u32],
    column_homes: &[u16],
    column_logicals: &[u16],
    marks: &[u8],
    starts: &[u64],
    entries: &[u32],
    words: &[u64],
    answers: &mut [u32],
    r: u32,
    a: u32,
    b: u32,
) -> PlainList
    ensures { (result ≡ list_by (result_of (full_of (store_of (numbers_of p) slots.now counts.now row_homes.now row_logicals.now column_homes.now column_logicals.now marks.now starts.now entries.now words.now) answers.old) (crossing p (op.Iter (record { r = r; a = a; b = b })) (full_of (store_of (numbers_of p) slots.now counts.now row_homes.now row_logicals.now column_homes.now column_logicals.now marks.now starts.now entries.now words.now) answers.old))).reply) × (answers.new ≡ (result_of (full_of (store_of (numbers_of p) slots.now counts.now row_homes.now row_logicals.now column_homes.now column_logicals.now marks.now starts.now entries.now words.now) answers.old) (crossing p (op.Iter (record { r = r; a = a; b = b })) (full_of (store_of (numbers_of p) slots.now counts.now row_homes.now row_logicals.now column_homes.now column_logicals.now marks.now starts.now entries.now words.now) answers.old))).after.answers) }
{
    if 1 < p.on {
        return PlainList {
            no: Refusal::Damaged.number(),
            count: 0,
        };
    }
    let store = Store {
        head: cross::head(p),
        slots,
        counts,
        row_homes,
        row_logicals,
        column_homes,
        column_logicals,
        marks,
        starts,
        entries,
        words,
    };
    cross::list(sparse_matrix::get_row_iter(&store, answers, r, a, b))
}

// TAILONES: the tail columns that hold one in row r, in the first answer places; a is the first tail column.
#[unsafe(no_mangle)]
pub extern "C" fn clatterthaw_tail_ones(
    p: PlainHead,
    slots: &[u16],
    counts: &[u16],
    row_homes: &[u32],
    row_logicals: &[u32],
    column_homes: &[u16],
    column_logicals: &[u16],
    marks: &[u8],
    starts: &[u64],
    entries: &[u32],
    words: &[u64],
    answers: &mut [u32],
    r: u32,
    a: u32,
) -> PlainList
    ensures { (result ≡ list_by (result_of (full_of (store_of (numbers_of p) slots.now counts.now row_homes.now row_logicals.now column_homes.now column_logicals.now marks.now starts.now entries.now words.now) answers.old) (crossing p (op.TailOnes (record { r = r; a = a })) (full_of (store_of (numbers_of p) slots.now counts.now row_homes.now row_logicals.now column_homes.now column_logicals.now marks.now starts.now entries.now words.now) answers.old))).reply) × (answers.new ≡ (result_of (full_of (store_of (numbers_of p) slots.now counts.now row_homes.now row_logicals.now column_homes.now column_logicals.now marks.now starts.now entries.now words.now) answers.old) (crossing p (op.TailOnes (record { r = r; a = a })) (full_of (store_of (numbers_of p) slots.now counts.now row_homes.now row_logicals.now column_homes.now column_logicals.now marks.now starts.now entries.now words.now) answers.old))).after.answers) }
{
    if 1 < p.on {
        return PlainList {
            no: Refusal::Damaged.number(),
            count: 0,
        };
    }
    let store = Store {
        head: cross::head(p),
        slots,
        counts,
        row_homes,
        row_logicals,
        column_homes,
        column_logicals,
        marks,
        starts,
        entries,
        words,
    };
    cross::list(sparse_matrix::query_non_zero_columns(&store, answers, r, a))
}

// COLONES: the rows a to b-1 that hold one in column c, in the first answer places.
#[unsafe(no_mangle)]
pub extern "C" fn clatterthaw_column_ones(
    p: PlainHead,
    slots: &[u16],
    counts: &[u16],
    row_homes: &[u32],
    row_logicals: &[u32],
    column_homes: &[u16],
    column_logicals: &[u16],
    marks: &[u8],
    starts: &[u64],
    entries: &[u32],
    words: &[u64],
    answers: &mut [u32],
    c: u32,
    a: u32,
    b: u32,
) -> PlainList
    ensures { (result ≡ list_by (result_of (full_of (store_of (numbers_of p) slots.now counts.now row_homes.now row_logicals.now column_homes.now column_logicals.now marks.now starts.now entries.now words.now) answers.old) (crossing p (op.ColOnes (record { c = c; a = a; b = b })) (full_of (store_of (numbers_of p) slots.now counts.now row_homes.now row_logicals.now column_homes.now column_logicals.now marks.now starts.now entries.now words.now) answers.old))).reply) × (answers.new ≡ (result_of (full_of (store_of (numbers_of p) slots.now counts.now row_homes.now row_logicals.now column_homes.now column_logicals.now marks.now starts.now entries.now words.now) answers.old) (crossing p (op.ColOnes (record { c = c; a = a; b = b })) (full_of (store_of (numbers_of p) slots.now counts.now row_homes.now row_logicals.now column_homes.now column_logicals.now marks.now starts.now entries.now words.now) answers.old))).after.answers) }
{
    if 1 < p.on {
        return PlainList {
            no: Refusal::Damaged.number(),
            count: 0,
        };
    }
    let store = Store {
        head: cross::head(p),
        slots,
        counts,
        row_homes,
        row_logicals,
        column_homes,
        column_logicals,
        marks,
        starts,
        entries,
        words,
    };
    cross::list(sparse_matrix::get_ones_in_column(&store, answers, c, a, b))
}

// WORDS: where the words of row r's tail stand in the lent words; a is the first tail column.
#[unsafe(no_mangle)]
pub extern "C" fn clatterthaw_words(
    p: PlainHead,
    slots: &[u16],
    counts: &[u16],
    row_homes: &[u32],
    row_logicals: &[u32],
    column_homes: &[u16],
    column_logicals: &[u16],
    marks: &[u8],
    starts: &[u64],
    entries: &[u32],
    words: &[u64],
    r: u32,
    a: u32,
) -> PlainWords
    ensures { result ≡ words_by (get_or row_homes.now r 0 * words_for p.n) (reply_of (crossing p (op.Words (record { r = r; a = a })) (full_of (store_of (numbers_of p) slots.now counts.now row_homes.now row_logicals.now column_homes.now column_logicals.now marks.now starts.now entries.now words.now) []))) }
{
    if 1 < p.on {
        return PlainWords {
            no: Refusal::Damaged.number(),
            count: 0,
            start: 0,
        };
    }
    let store = Store {
        head: cross::head(p),
        slots,
        counts,
        row_homes,
        row_logicals,
        column_homes,
        column_logicals,
        marks,
        starts,
        entries,
        words,
    };
    let start = cross::part_start(row_homes, p.n, r);
    cross::words(sparse_matrix::get_sub_row(&store, r, a), start)
}
