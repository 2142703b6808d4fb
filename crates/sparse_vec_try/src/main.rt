#![tactic(auto)]
// Tries the rows of sparse_vec at their edges, and prints what each call answers and leaves.
ghost use Rattle.std.specs.Prelude.{◌≡◌, true};
ghost use Rattle.sparse_vec.specs.Calls.{CanRetain};
ghost use Rattle.sparse_vec_try.specs.Tests.{IsRow, ZeroBetween};

use sparse_vec::Row;

// Prints a space and a number.
fn print(x: u64) {
    io::write_all(1, b" ");
    io::print_decimal(1, x);
}

// Prints the numbers of a list, and ends the line.
fn show<T: Copy + Into<u64>>(numbers: &[T]) {
    io::write_all(1, b" :");
    for x in numbers {
        print((*x).into());
    }
    io::write_all(1, b"\n");
}

// Answers whether the numbers rise and are in the map, which the calls on a row ask for.
fn is_row(row: &[u16], map: &[u16]) -> bool
    ensures { result ≡ true → IsRow row.now map.now }
{
    sparse_vec::sound(row, map, 65535)
}

// Answers whether the places from `from` up to `to` are there and zero.
fn zero_between(slots: &[u16], from: usize, to: usize) -> bool
    ensures { result ≡ true → ZeroBetween slots.now from to }
{
    if slots.len() < to || to < from {
        return false;
    }
    for k in from..to {
        if slots[k] != 0 {
            return false;
        }
    }
    true
}

// Answers whether a row stands in the stretch, which the calls on a stretch ask for.
fn has_row(slots: &[u16], map: &[u16], row: Row) -> bool
    ensures { result ≡ true → CanRetain slots.now row.at row.len row.cap map.now }
{
    if slots.len() < row.cap || row.cap < row.len {
        return false;
    }
    if slots.len() - row.cap < row.at {
        return false;
    }
    if !is_row(row.numbers(slots), map) {
        return false;
    }
    zero_between(slots, row.at + row.len, row.at + row.cap)
}

// The row of len numbers from place `at` on, in a stretch of cap places.
fn row_at(at: usize, len: usize, cap: usize) -> Row
    ensures { result ≡ record { at = at; len = len; cap = cap } }
{
    Row { at, len, cap }
}

// Prints where x stands or would go, and whether it is there.
fn find(row: &[u16], map: &[u16], x: u16) {
    if is_row(row, map) {
        match sparse_vec::key_to_internal_index(row, x) {
            Ok(i) => {
                io::write_all(1, b"at");
                print(i as u64);
            }
            Err(i) => {
                io::write_all(1, b"insert");
                print(i as u64);
            }
        }
        if sparse_vec::get(row, x) {
            io::write_all(1, b" there\n");
        } else {
            io::write_all(1, b" missing\n");
        }
    }
}

fn insert(slots: &mut [u16], map: &[u16], row: Row, x: u16) {
    if row.len == row.cap {
        return;
    }
    if has_row(slots, map, row) {
        let n = sparse_vec::insert(slots, row, x);
        io::write_all(1, b"insert");
        print(n as u64);
        show(slots);
    }
}

fn remove(slots: &mut [u16], map: &[u16], row: Row, x: u16) {
    if has_row(slots, map, row) {
        let n = sparse_vec::remove(slots, row, x);
        io::write_all(1, b"remove");
        print(n as u64);
        show(slots);
    }
}

// Adds row `from` to row `to`, where they lie apart in stretches of one size.
fn add(slots: &mut [u16], map: &[u16], to: Row, from: Row) {
    if !has_row(slots, map, to) || !has_row(slots, map, from) || from.cap != to.cap {
        return;
    }
    if from.at < to.at + to.cap && to.at < from.at + from.cap {
        return;
    }
    if sparse_vec::sum_fits(slots, to, from) {
        io::write_all(1, b"fits");
    } else {
        io::write_all(1, b"not");
    }
    match sparse_vec::add_assign(slots, to, from) {
        Some(n) => {
            io::write_all(1, b" done");
            print(n as u64);
        }
        None => {
            io::write_all(1, b" full");
        }
    }
    show(slots);
}

// Prints how many numbers of the row have a logical number of a to b-1, and lists them.
fn walk(row: &[u16], map: &[u16], a: u32, b: u32, answers: &mut [u32]) {
    if row.len() <= answers.len() && is_row(row, map) {
        io::write_all(1, b"walk");
        print(sparse_vec::count_in(row, map, a, b) as u64);
        print(sparse_vec::walk(row, map, a, b, answers) as u64);
        show(answers);
    }
}

fn retain(slots: &mut [u16], map: &[u16], row: Row, w: u32) {
    if has_row(slots, map, row) {
        let n = sparse_vec::retain(slots, row, map, w);
        io::write_all(1, b"retain");
        print(n as u64);
        show(slots);
    }
}

fn exchange(slots: &mut [u16], a: usize, b: usize, n: usize) {
    if b < a || slots.len() < b {
        return;
    }
    if n <= b - a && n <= slots.len() - b {
        lent::exchange(slots, a, b, n);
        io::write_all(1, b"exchange");
        show(slots);
    }
}

fn clear(slots: &mut [u16], from: usize, to: usize) {
    if from <= to && to <= slots.len() {
        lent::clear(slots, from, to);
        io::write_all(1, b"clear");
        show(slots);
    }
}

fn try_find(map: &[u16]) {
    let row = [2u16, 4, 7];
    find(&row[..0], map, 3);
    find(&row[..1], map, 2);
    find(&row, map, 1);
    find(&row, map, 4);
    find(&row, map, 5);
    find(&row, map, 9);
}

fn try_change(map: &[u16]) {
    let mut slots = [9u16, 0, 0, 0, 9];
    insert(&mut slots, map, row_at(1, 0, 3), 5);
    insert(&mut slots, map, row_at(1, 1, 3), 5);
    insert(&mut slots, map, row_at(1, 1, 3), 2);
    insert(&mut slots, map, row_at(1, 2, 3), 3);
    remove(&mut slots, map, row_at(1, 3, 3), 4);
    remove(&mut slots, map, row_at(1, 3, 3), 2);
    remove(&mut slots, map, row_at(1, 2, 3), 5);
}

fn try_add(map: &[u16]) {
    let mut four = [1u16, 2, 0, 0, 1, 4, 0, 0];
    add(&mut four, map, row_at(0, 2, 4), row_at(4, 2, 4));
    let mut three = [3u16, 0, 3, 0];
    add(&mut three, map, row_at(0, 1, 2), row_at(2, 1, 2));
    let mut full = [1u16, 2, 3, 0];
    add(&mut full, map, row_at(0, 2, 2), row_at(2, 1, 2));
    let mut two = [1u16, 2, 2, 3];
    add(&mut two, map, row_at(0, 2, 2), row_at(2, 2, 2));
    let mut before = [1u16, 4, 0, 0, 1, 2, 0, 0];
    add(&mut before, map, row_at(4, 2, 4), row_at(0, 2, 4));
    let mut tight = [3u16, 5, 7, 0, 1, 3, 7, 8];
    add(&mut tight, map, row_at(0, 3, 4), row_at(4, 4, 4));
    let mut none = [2u16, 0, 0, 0, 0, 0];
    add(&mut none, map, row_at(0, 1, 3), row_at(3, 0, 3));
}

fn try_mapped(map: &[u16]) {
    let row = [1u16, 3, 6];
    let mut answers = [99u32; 4];
    walk(&row, map, 0, 10, &mut answers);
    let mut others = [99u32; 4];
    walk(&row, map, 4, 8, &mut others);
    walk(&row, map, 8, 4, &mut others);
    let mut slots = [1u16, 3, 6, 0];
    retain(&mut slots, map, row_at(0, 3, 4), 8);
    exchange(&mut slots, 0, 2, 2);
    clear(&mut slots, 1, 3);
}

fn main() {
    // the map turned round: home column z has the logical number 9 - z
    let map = [9u16, 8, 7, 6, 5, 4, 3, 2, 1, 0];
    try_find(&map);
    try_change(&map);
    try_add(&map);
    try_mapped(&map);
}
