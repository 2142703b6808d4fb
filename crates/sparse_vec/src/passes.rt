// The passes of a row addition: one where both rows together have room, two where only the sum has.
ghost use Rattle.std.specs.Prelude.{◌≡◌, ◌+◌, ◌<◌, leb, length, set};
ghost use Rattle.laws.specs.Plain.{pick};
ghost use Rattle.laws.specs.Rows.{xor_merge};
ghost use Rattle.sparse_vec.specs.Passes.{CanMerge, Merged, CanLay, Halfway, Half, Settled};

use crate::Row;
use lent::move_stretch;

// How far a merge has come: i numbers of the first row and j of the second are read, n numbers of the sum are found.
#[derive(Clone, Copy)]
pub struct Reached {
    pub i: usize,
    pub j: usize,
    pub n: usize,
}

// Counts the numbers of the sum of two rows, with no branch on the numbers.
pub fn sum_length(a: &[u16], b: &[u16]) -> usize
    ensures { result ≡ length (xor_merge a.now b.now) }
{
    let mut i = 0;
    let mut j = 0;
    let mut n = 0;
    // a `for` has one index: these two run at different speeds
    while i < a.len() && j < b.len() {
        let x = a[i];
        let y = b[j];
        n += (x != y) as usize;
        i += (x <= y) as usize;
        j += (y <= x) as usize;
    }
    n + (a.len() - i) + (b.len() - j)
}

// Merges row `to`, moved right by from.len, and row `from` to where `to` stood, until one of the two rows is used up. The smaller
// number is written always, and kept by moving on: on random rows a branch on the numbers is what costs.
pub fn merge_forward(slots: &mut [u16], to: Row, from: Row) -> Reached
    requires { CanMerge slots.old to.at to.len from.at from.len }
    ensures { Merged slots.old slots.new to.at to.len from.at from.len result.i result.j result.n }
{
    let mut i = 0;
    let mut j = 0;
    let mut n = 0;
    // a `for` has one index: these two run at different speeds
    while i < to.len && j < from.len {
        let x = slots[to.at + from.len + i];
        let y = slots[from.at + j];
        slots[to.at + n] = y.min(x);
        n += (x != y) as usize;
        i += (x <= y) as usize;
        j += (y <= x) as usize;
    }
    Reached { i, j, n }
}

// Writes y to place v of the stretch at d, if that is not before b.
fn lay(slots: &mut [u16], d: usize, b: usize, v: usize, y: u16)
    requires { d + v < length slots.old }
    ensures { slots.new ≡ pick (leb b v) (set slots.old (d + v) y) slots.old }
{
    if b <= v {
        slots[d + v] = y;
    }
}

// From the top down: each number of the sum whose place lies right of the numbers of row `to` that are not yet read goes to its place.
pub fn merge_up(slots: &mut [u16], to: Row, from: Row, n: usize)
    requires { CanLay slots.old to.at to.len from.at from.len n }
    ensures { Halfway slots.old slots.new to.at to.len from.at from.len n }
{
    let mut i = to.len;
    let mut j = from.len;
    let mut w = n;
    let mut b = to.len;
    // no `for`: the numbers of `from` are taken at some turns, and those of `to` at others
    while 0 < j {
        let g = j - 1;
        let y = slots[from.at + g];
        if 0 < i {
            let h = i - 1;
            let x = slots[to.at + h];
            if x == y {
                b = i;
                i = h;
                j = g;
            } else if y < x {
                w -= 1;
                lay(slots, to.at, i, w, x);
                b = i;
                i = h;
            } else {
                w -= 1;
                lay(slots, to.at, b, w, y);
                j = g;
            }
        } else {
            w -= 1;
            lay(slots, to.at, b, w, y);
            j = g;
        }
    }
}

// From the bottom up, after merge_up: the other numbers of the sum go to their places. Where the sum runs ahead of row `to`, its
// numbers stand there already, and what stands at place w tells which row the next number comes from.
pub fn merge_on(slots: &mut [u16], to: Row, from: Row, n: usize)
    requires { Half slots.old to.at to.len from.at from.len n }
    ensures { Settled slots.old slots.new to.at to.len from.at from.len n }
{
    let mut i = 0;
    let mut j = 0;
    let mut w = 0;
    // no `for`: the numbers of `from` are taken at some turns, and those of `to` at others
    while j < from.len {
        let y = slots[from.at + j];
        if i < w {
            if w == n {
                i += 1;
                j += 1;
            } else {
                let z = slots[to.at + w];
                w += (z <= y) as usize;
                i += (z != y) as usize;
                j += (y <= z) as usize;
            }
        } else if i < to.len {
            let x = slots[to.at + i];
            if x < y {
                slots[to.at + w] = x;
                w += 1;
                i += 1;
            } else if x == y {
                i += 1;
                j += 1;
            } else {
                slots[to.at + w] = y;
                w += 1;
                j += 1;
            }
        } else {
            slots[to.at + w] = y;
            w += 1;
            j += 1;
        }
    }
    if w < i {
        move_stretch(slots, to.at + i, to.at + w, to.len - i);
    }
}
