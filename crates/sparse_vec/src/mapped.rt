// A row read through the map from home to logical columns.
ghost use Rattle.std.specs.Prelude.{◌≡◌, length};
ghost use Rattle.laws.specs.Parts.{part, over};
ghost use Rattle.sparse_vec.specs.Row.{put_row, Mapped, walked, kept_below, row_test};
ghost use Rattle.sparse_vec.specs.Calls.{CanWalk, CanRetain};

use crate::Row;
use lent::clear;

// Counts the row's numbers whose logical number is one of a to b-1.
pub fn count_in(row: &[u16], logical: &[u16], a: u32, b: u32) -> usize
    requires { Mapped row.now logical.now }
    ensures { result ≡ length (walked logical.now a b row.now) }
{
    let mut n = 0;
    // not `iter().filter(..).count()`, which branches at each number: 115 ns in a row of 32 numbers, and 43 so
    for &z in row {
        let c = u32::from(logical[usize::from(z)]);
        if a <= c && c < b {
            n += 1;
        }
    }
    n
}

// Lists the logical numbers of the row's numbers, those of a to b-1, by rising home number (01, ITER), and answers how many.
pub fn walk(row: &[u16], logical: &[u16], a: u32, b: u32, answers: &mut [u32]) -> usize
    requires { CanWalk row.now logical.now a b answers.old }
    ensures { (result ≡ length (walked logical.now a b row.now)) × (answers.new ≡ over (walked logical.now a b row.now) answers.old) }
{
    let mut n = 0;
    for &z in row {
        let c = u32::from(logical[usize::from(z)]);
        if a <= c && c < b {
            answers[n] = c;
            n += 1;
        }
    }
    n
}

// Keeps those of the row's numbers whose logical number is below w, and answers how many.
pub fn retain(slots: &mut [u16], row: Row, logical: &[u16], w: u32) -> usize
    requires { CanRetain slots.old row.at row.len row.cap logical.now }
    ensures { (result ≡ length (kept_below logical.now w (part slots.old row.at row.len))) × (slots.new ≡ put_row slots.old row.at row.cap (kept_below logical.now w (part slots.old row.at row.len))) }
{
    let mut n = 0;
    for i in 0..row.len {
        let z = slots[row.at + i];
        if u32::from(logical[usize::from(z)]) < w {
            slots[row.at + n] = z;
            n += 1;
        }
    }
    clear(slots, row.at + n, row.at + row.len);
    n
}

// Answers whether the row rises strictly, each number in the map with a logical number below `edge`: its share of the store check.
pub fn sound(row: &[u16], logical: &[u16], edge: u32) -> bool
    ensures { result ≡ row_test logical.now edge 0 row.now }
{
    let mut lo = 0;
    for &x in row {
        let z = usize::from(x);
        if z < lo || logical.len() <= z || edge <= u32::from(logical[z]) {
            return false;
        }
        lo = z + 1;
    }
    true
}
