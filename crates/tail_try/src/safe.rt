// Each function of `tail`, and the exchange of `lent`, behind a test of what it requires: at least six words, three rows, 128 columns. Where the test fails, nothing is done and `?` is written.
use crate::show;

// The line of a trial that was not done.
fn out_of_reach() {
    io::write_all(1, b"?\n");
}

// The first six words.
pub fn fill(ws: &mut [u64], six: [u64; 6]) {
    if 6 <= ws.len() {
        ws[..6].copy_from_slice(&six);
    }
}

// A line with the bit.
pub fn get(ws: &[u64], n: u32, y: usize, d: u32) {
    if 6 <= ws.len() && n <= 128 && y < 3 && d < n {
        show::bit(b"get", tail::get(ws, n, y, d));
    } else {
        out_of_reach();
    }
}

// The bit put.
pub fn put(ws: &mut [u64], n: u32, y: usize, d: u32, v: bool) {
    if 6 <= ws.len() && n <= 128 && y < 3 && d < n {
        tail::put(ws, n, y, d, v);
    } else {
        out_of_reach();
    }
}

// A line with whether the padding is clear.
pub fn padding_clear(ws: &[u64], n: u32, h: usize) {
    if 6 <= ws.len() && n <= 128 && h <= 3 {
        show::bit(b"padding clear", tail::padding_clear(ws, n, h));
    } else {
        out_of_reach();
    }
}

// Row src xored into row dst.
pub fn xor_rows(ws: &mut [u64], s: usize, dst: usize, src: usize) {
    if 6 <= ws.len() && s <= 2 && dst < 3 && src < 3 && dst != src {
        tail::xor_rows(ws, s, dst, src);
    } else {
        out_of_reach();
    }
}

// A line with the words of a row.
pub fn row_words(ws: &[u64], s: usize, y: usize) {
    if 6 <= ws.len() && s <= 2 && y < 3 {
        show::words(b"row", tail::row_words(ws, s, y));
    } else {
        out_of_reach();
    }
}

// Two stretches exchanged.
pub fn exchange(ws: &mut [u64], a: usize, b: usize, n: usize) {
    if 6 <= ws.len() && a <= 4 && b <= 4 && n <= 2 && (a + n <= b || b + n <= a) {
        lent::exchange(ws, a, b, n);
    } else {
        out_of_reach();
    }
}

// A line with the columns that hold one, and a line with how many the count says.
pub fn ones(ws: &[u64], n: u32, y: usize, base: u32) {
    let mut space = [0u32; 128];
    let answers: &mut [u32] = &mut space;
    if 6 <= ws.len() && n <= 128 && y < 3 && base <= 1000 {
        let done = tail::ones(ws, n, y, base, answers);
        show::answers(b"ones", answers, done);
        io::write_all(1, b"count");
        show::number(tail::count(ws, n, y) as u64);
        show::end();
    } else {
        out_of_reach();
    }
}

// Room for one more column.
pub fn grow(ws: &mut [u64], n: u32, h: usize) {
    if 6 <= ws.len() && n <= 127 && h <= 3 {
        tail::grow(ws, n, h);
    } else {
        out_of_reach();
    }
}
