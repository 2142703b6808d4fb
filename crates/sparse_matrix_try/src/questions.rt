// What the store is asked: every question, and its refusals.
use crate::show;
use sparse_matrix::Store;

// GET of row 1, column 1.
pub fn ask(store: &Store) {
    get(store, 1, 1);
}

// GET of row r, column c.
fn get(store: &Store, r: u32, c: u32) {
    show::told(sparse_matrix::get(store, r, c).map(|v| [v]));
}

// COUNT in row r, columns a to b-1.
fn count(store: &Store, r: u32, a: u32, b: u32) {
    show::told(sparse_matrix::count_ones(store, r, a, b).map(|n| [n]));
}

// Every number question and its refusals.
pub fn numbers(store: &Store) {
    show::told(sparse_matrix::size(store).map(|s| [s.h, s.w, s.n]));
    get(store, 0, 0);
    get(store, 0, 1);
    get(store, 0, 2);
    get(store, 1, 2);
    get(store, 2, 3);
    get(store, 1, u32::MAX);
    count(store, 1, 0, 2);
    count(store, 1, 2, 1);
    count(store, 1, 0, 3);
    show::told(sparse_matrix::get_sub_row(store, 1, 2).map(|ws| [ws.len() as u64]));
    show::line(b"words", sub_row(store, 1, 2));
    show::line(b"words", sub_row(store, 1, 1));
}

// WORDS in row r, by the call that hands back the part alone.
fn sub_row<'a>(store: &Store<'a>, r: u32, a: u32) -> &'a [u64] {
    sparse_matrix::sub_row(
        store.head,
        store.slots,
        store.counts,
        store.row_homes,
        store.row_logicals,
        store.column_homes,
        store.column_logicals,
        store.marks,
        store.starts,
        store.entries,
        store.words,
        r,
        a,
    )
}

// ITER, TAILONES and COLONES over the answers.
pub fn lists(store: &Store, answers: &mut [u32]) {
    let told = sparse_matrix::get_row_iter(store, answers, 1, 0, 2);
    show::listed(told, answers);
    let told = sparse_matrix::query_non_zero_columns(store, answers, 1, 2);
    show::listed(told, answers);
    let told = sparse_matrix::get_ones_in_column(store, answers, 0, 0, 9);
    show::listed(told, answers);
}
