#![tactic(auto)]
// Asks a small store, index off and on, and then damages each kind of its numbers in turn: GET and SET then say `no 1`, and every number is as it was.
mod kept;
mod questions;
mod show;

use kept::{Kept, OFF, on};
use sparse_matrix::{CellsMut, Store};

// SET of row 0, column 1 to one; then every number of the store.
fn put(mut kept: Kept) {
    let mut store = CellsMut {
        head: kept.head,
        slots: &mut kept.slots,
        counts: &mut kept.counts,
        row_homes: &kept.row_homes,
        row_logicals: &kept.row_logicals,
        column_homes: &kept.column_homes,
        column_logicals: &kept.column_logicals,
        marks: &kept.marks,
        starts: &kept.starts,
        entries: &kept.entries,
        words: &mut kept.words,
    };
    let told = sparse_matrix::set(&mut store, 0, 1, 1);
    show::told::<u32, 0>(told.map(|()| []));
    show::store(&store.view());
}

// GET of row 1, column 1; then SET.
fn asked(kept: Kept) {
    questions::ask(&kept.view());
    put(kept);
}

// The store with the index off: all that it is asked; then into one place of answers; then with a buffer short by one.
fn off_told() {
    let store = OFF.view();
    questions::numbers(&store);
    questions::lists(&store, &mut [7; 3]);
    questions::lists(&store, &mut [7; 1]);
    questions::ask(&Store {
        starts: &[0; 3],
        ..store
    });
}

// The store with the index on, home column 2 exact and then spent.
fn on_told() {
    let spent = on().damaged(|s| s.marks[2] = 1);
    questions::lists(&on().view(), &mut [7; 3]);
    questions::lists(&spent.view(), &mut [7; 3]);
}

fn main() {
    off_told();
    // each kind of number damaged
    asked(OFF.damaged(|s| s.slots[1] = 0));
    asked(OFF.damaged(|s| s.slots[3] = 5));
    asked(OFF.damaged(|s| s.counts[0] = 3));
    asked(OFF.damaged(|s| s.row_homes[0] = 0));
    asked(OFF.damaged(|s| s.column_homes[0] = 1));
    asked(OFF.damaged(|s| s.column_logicals[2] = 1));
    asked(OFF.damaged(|s| s.marks[2] = 1));
    asked(OFF.damaged(|s| s.starts[3] = 1));
    asked(OFF.damaged(|s| s.entries[3] = 1));
    asked(OFF.damaged(|s| s.words[1] = 1));
    // the head: a tail wider than the matrix, slots past the limit, an index that is on over none; and all as it was
    asked(OFF.damaged(|s| s.head.n = 4));
    asked(OFF.damaged(|s| s.head.slots = 65536));
    asked(OFF.damaged(|s| s.head.on = true));
    asked(OFF);
    on_told();
    // a mark that is none, a start past its list, an entry past the rows; and all as it was
    asked(on().damaged(|s| s.marks[1] = 2));
    asked(on().damaged(|s| s.starts[2] = 2));
    asked(on().damaged(|s| s.entries[2] = 2));
    asked(on());
}
