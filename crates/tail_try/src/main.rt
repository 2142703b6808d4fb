#![tactic(auto)]
// Tries the functions on tail words at the edges, on six words and at most 128 columns: a line for each trial.
mod safe;
mod show;

fn main() {
    sizes();
    cells();
    paddings();
    rows();
    ones();
    grows();
}

// Words and padding of n columns.
fn sizes() {
    for n in [0, 1, 63, 64, 65, 128] {
        size(n);
    }
}

// A line with n, its words and its padding.
fn size(n: u32) {
    io::write_all(1, b"size");
    show::number(u64::from(n));
    show::number(tail::words_for(n) as u64);
    show::number(u64::from(tail::padding_of(n)));
    show::end();
}

// The first and the last column of a row, on and off; and bits that no one put.
fn cells() {
    let mut space = [0u64; 6];
    let ws: &mut [u64] = &mut space;
    safe::put(ws, 65, 2, 0, true);
    safe::put(ws, 65, 2, 64, true);
    show::words(b"put 65", ws);
    safe::get(ws, 65, 2, 0);
    safe::get(ws, 65, 2, 1);
    safe::get(ws, 65, 2, 64);
    safe::get(ws, 65, 1, 64);
    safe::put(ws, 65, 2, 0, false);
    safe::put(ws, 65, 0, 1, false);
    show::words(b"off", ws);
    safe::fill(ws, [0, 0, 0, 0, 0, 0]);
    safe::put(ws, 1, 2, 0, true);
    safe::put(ws, 63, 0, 0, true);
    safe::put(ws, 63, 0, 62, true);
    safe::put(ws, 64, 1, 0, true);
    safe::put(ws, 64, 1, 63, true);
    safe::put(ws, 128, 2, 0, true);
    safe::put(ws, 128, 2, 127, true);
    show::words(b"put", ws);
}

// A bit before the first column, and none there.
fn paddings() {
    let mut space = [0u64; 6];
    let ws: &mut [u64] = &mut space;
    safe::fill(ws, [1, 0, 0, 0, 0, 0]);
    safe::padding_clear(ws, 63, 3);
    safe::padding_clear(ws, 64, 3);
    safe::padding_clear(ws, 0, 3);
    safe::fill(ws, [2, 0, 1, 0, 0, 0]);
    safe::padding_clear(ws, 63, 2);
    safe::padding_clear(ws, 63, 3);
    safe::padding_clear(ws, 65, 1);
    safe::padding_clear(ws, 65, 2);
}

// Rows and stretches; the words about them stay.
fn rows() {
    let mut space = [0u64; 6];
    let ws: &mut [u64] = &mut space;
    safe::fill(ws, [1, 2, 3, 4, 5, 6]);
    safe::xor_rows(ws, 2, 2, 0);
    show::words(b"xor", ws);
    safe::xor_rows(ws, 2, 0, 1);
    show::words(b"xor", ws);
    safe::row_words(ws, 2, 1);
    safe::row_words(ws, 1, 2);
    safe::row_words(ws, 0, 2);
    safe::fill(ws, [1, 2, 3, 4, 5, 6]);
    safe::exchange(ws, 0, 4, 2);
    show::words(b"exchange", ws);
    safe::exchange(ws, 3, 2, 1);
    show::words(b"exchange", ws);
}

// Which columns hold one, and how many.
fn ones() {
    let mut space = [0u64; 6];
    let ws: &mut [u64] = &mut space;
    safe::put(ws, 65, 1, 0, true);
    safe::put(ws, 65, 1, 1, true);
    safe::put(ws, 65, 1, 64, true);
    safe::ones(ws, 65, 1, 10);
    safe::ones(ws, 65, 2, 10);
    safe::ones(ws, 0, 2, 10);
    safe::ones(ws, 128, 1, 0);
    safe::fill(ws, [9223372036854775810, 0, 0, 0, 0, 0]);
    safe::ones(ws, 63, 0, 5);
    safe::ones(ws, 64, 0, 5);
    safe::ones(ws, 1, 0, 0);
}

// One more column, with three rows full of ones before.
fn grows() {
    let mut space = [0u64; 6];
    let ws: &mut [u64] = &mut space;
    let full = u64::MAX;
    safe::fill(ws, [full - 1, full - 1, full - 1, 0, 0, 0]);
    safe::grow(ws, 63, 3);
    show::words(b"grow 63", ws);
    safe::get(ws, 64, 2, 0);
    safe::get(ws, 64, 2, 1);
    safe::fill(ws, [full, full, full, 0, 0, 0]);
    safe::grow(ws, 64, 3);
    show::words(b"grow 64", ws);
    safe::get(ws, 65, 1, 0);
    safe::get(ws, 65, 1, 1);
    safe::fill(ws, [full, full, full, full, full, full]);
    safe::grow(ws, 0, 3);
    show::words(b"grow 0", ws);
}
