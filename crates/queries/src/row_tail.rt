// The words of a row's tail: WORDS, on a store that is known to be well-formed.
// `inline(always)`: a store handed by reference to a function that is not inlined is laid out in memory first (docs/DECISIONS.md, "Form").
ghost use Rattle.std.specs.Prelude.{◌≡◌, [], ◌*◌, get_or};
ghost use Rattle.laws.specs.Words.{words_for};
ghost use Rattle.table.specs.declared.Op.TheVariants.{Words};
ghost use Rattle.table.specs.Run.{reply_of};
ghost use Rattle.model.specs.WellFormed.{WellFormed};
ghost use Rattle.model.specs.Step.{inner};
ghost use Rattle.store_head.specs.Lent.{seen, store_of, full_of};
ghost use Rattle.store_head.specs.Told.{words_says, WordsAt, handed};

use permutation::LogicalRow;
use store_head::{Numbers, Refusal, Store};

// WORDS: the words of row r's tail, a part of the lent ones, from home row times words per row. The caller names the first tail column, a.
#[inline(always)]
pub fn get_sub_row_in<'a>(store: &Store<'a>, r: u32, a: u32) -> Result<&'a [u64], Refusal>
    requires { WellFormed (seen store.now) }
    ensures told { words_says result ≡ reply_of (inner (Words (record { r = r; a = a })) (full_of (seen store.now) [])) }
    ensures place { WordsAt store.now.words.now (get_or store.now.row_homes.now r 0 * words_for store.now.head.n) (words_for store.now.head.n) result }
{
    if store.head.h <= r {
        return Err(Refusal::Row);
    }
    if a != store.head.w - store.head.n {
        return Err(Refusal::Side);
    }
    let y = permutation::home_row(store.row_homes, LogicalRow(r));
    let words = store.words;
    Ok(tail::row_words(words, tail::words_for(store.head.n), y.0 as usize))
}

// WORDS, the call that hands back the row's part of the lent words and can't fail; empty where WORDS is refused. It takes the slices one by one, so that of the ten only the words stay lent
// with the part.
pub fn sub_row_in<'a>(
    head: Numbers,
    slots: &[u16],
    counts: &[u16],
    row_homes: &[u32],
    row_logicals: &[u32],
    column_homes: &[u16],
    column_logicals: &[u16],
    marks: &[u8],
    starts: &[u64],
    entries: &[u32],
    words: &'a [u64],
    r: u32,
    a: u32,
) -> &'a [u64]
    requires { WellFormed (store_of head slots.now counts.now row_homes.now row_logicals.now column_homes.now column_logicals.now marks.now starts.now entries.now words.now) }
    ensures { result.now ≡ handed (reply_of (inner (Words (record { r = r; a = a })) (full_of (store_of head slots.now counts.now row_homes.now row_logicals.now column_homes.now column_logicals.now marks.now starts.now entries.now words.now) []))) }
{
    if head.h <= r || a != head.w - head.n {
        return &words[..0];
    }
    let y = permutation::home_row(row_homes, LogicalRow(r));
    tail::row_words(words, tail::words_for(head.n), y.0 as usize)
}
