// The public calls that answer with a number, the sizes or words: each checks the whole store first, and refuses a damaged one with 1; then its inner twin answers.
ghost use Rattle.std.specs.Prelude.{◌≡◌, [], ◌*◌, get_or};
ghost use Rattle.laws.specs.Words.{words_for};
ghost use Rattle.table.specs.declared.Op.TheVariants as op;
ghost use Rattle.table.specs.Run.{reply_of};
ghost use Rattle.model.specs.Step.{step};
ghost use Rattle.store_head.specs.Lent.{seen, store_of, full_of};
ghost use Rattle.store_head.specs.Told.{number_says, size_says, words_says, WordsAt, handed};

use queries::{query, row_tail};
use store_check::sound;
use store_head::{Numbers, Refusal, Size, Store};

// SIZE: height, width and tail.
pub fn size(store: &Store) -> Result<Size, Refusal>
    ensures { size_says result ≡ reply_of (step op.Size (full_of (seen store.now) [])) }
{
    match sound(store) {
        Ok(()) => Ok(query::size_in(store)),
        Err(why) => Err(why),
    }
}

// GET: the bit in row r and column c.
pub fn get(store: &Store, r: u32, c: u32) -> Result<u32, Refusal>
    ensures { number_says result ≡ reply_of (step (op.Get (record { r = r; c = c })) (full_of (seen store.now) [])) }
{
    sound(store)?;
    query::get_in(store, r, c)
}

// COUNT: how many of the sparse columns a to b-1 hold one in row r.
pub fn count_ones(store: &Store, r: u32, a: u32, b: u32) -> Result<u32, Refusal>
    ensures { number_says result ≡ reply_of (step (op.Count (record { r = r; a = a; b = b })) (full_of (seen store.now) [])) }
{
    sound(store)?;
    query::count_ones_in(store, r, a, b)
}

// WORDS: the words of row r's tail, a part of the lent ones; a is the first tail column.
pub fn get_sub_row<'a>(store: &Store<'a>, r: u32, a: u32) -> Result<&'a [u64], Refusal>
    ensures told { words_says result ≡ reply_of (step (op.Words (record { r = r; a = a })) (full_of (seen store.now) [])) }
    ensures place { WordsAt store.now.words.now (get_or store.now.row_homes.now r 0 * words_for store.now.head.n) (words_for store.now.head.n) result }
{
    sound(store)?;
    row_tail::get_sub_row_in(store, r, a)
}

// WORDS, the call that hands back the part of the lent words and can't fail; empty where WORDS is refused. Of the ten slices only the words stay lent with the part.
pub fn sub_row<'a>(
    head: Numbers,
    slots: &[u16],
    counts: &[u16],
    row_homes: &[u32],
    row_logicals: &[u32],
    column_homes: &[u16],
    column_logicals: &[u16],
    marks: &[u8],
    starts: &[u64],
    entries: &[u32],
    words: &'a [u64],
    r: u32,
    a: u32,
) -> &'a [u64]
    ensures { result.now ≡ handed (reply_of (step (op.Words (record { r = r; a = a })) (full_of (store_of head slots.now counts.now row_homes.now row_logicals.now column_homes.now column_logicals.now marks.now starts.now entries.now words.now) []))) }
{
    let store = Store {
        head,
        slots,
        counts,
        row_homes,
        row_logicals,
        column_homes,
        column_logicals,
        marks,
        starts,
        entries,
        words,
    };
    if !store_check::well_formed(&store) {
        return &words[..0];
    }
    row_tail::sub_row_in(
        head,
        slots,
        counts,
        row_homes,
        row_logicals,
        column_homes,
        column_logicals,
        marks,
        starts,
        entries,
        words,
        r,
        a,
    )
}
