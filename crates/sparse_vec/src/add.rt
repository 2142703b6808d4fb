// The sum of two rows over bits, in place of the first: no scratch, linear, and refused exactly where the sum has no room.
ghost use Rattle.std.specs.Prelude.{◌≡◌, [], ◌∷◌, ◌+◌, ◌≤◌, leb, length};
ghost use Rattle.laws.specs.Rows.{xor_merge};
ghost use Rattle.laws.specs.Parts.{part, put_at};
ghost use Rattle.sparse_vec.specs.Row.{put_row, HasRow, CanAdd, row_sum, sum_in, added_to};
ghost use Rattle.sparse_vec.specs.Passes.{CanMerge, CanBring};

use crate::Row;
use crate::change::{insert_at, remove_at};
use crate::find::key_to_internal_index;
use crate::passes::{merge_forward, merge_on, merge_up, sum_length};
use lent::{clear, move_stretch};

// Answers whether the sum of the rows `to` and `from` has room in the places of `to`; where both rows together have, nothing is counted.
pub fn sum_fits(slots: &[u16], to: Row, from: Row) -> bool
    requires { CanAdd slots.now to.at to.len from.at from.len to.cap }
    ensures { result ≡ leb (length (row_sum slots.now to.at to.len from.at from.len)) to.cap }
{
    if from.len <= to.cap - to.len {
        return true;
    }
    sum_length(to.numbers(slots), from.numbers(slots)) <= to.cap
}

// Adds a row of one number: x is found, and goes out or in.
fn add_one(slots: &mut [u16], to: Row, x: u16) -> Option<usize>
    requires { HasRow slots.old to.at to.len to.cap }
    ensures { (result ≡ sum_in to.cap (xor_merge (part slots.old to.at to.len) (x ∷ []))) × (slots.new ≡ added_to slots.old to.at to.cap (xor_merge (part slots.old to.at to.len) (x ∷ []))) }
{
    match key_to_internal_index(to.numbers(slots), x) {
        Ok(i) => {
            remove_at(slots, to.at, to.len, i);
            Some(to.len - 1)
        }
        Err(i) => {
            if to.len == to.cap {
                return None;
            }
            insert_at(slots, to.at, to.len, i, x);
            Some(to.len + 1)
        }
    }
}

// Writes the k numbers at `from` to the places from `to` on, the first one first. Not `lent::move_stretch`: two rows of 2 numbers are added in 40 ns with it, in
// 31 so, and two of 8 in 88 and 77.
fn bring(slots: &mut [u16], to: usize, from: usize, k: usize)
    requires { CanBring slots.old to from k }
    ensures { slots.new ≡ put_at slots.old to (part slots.old from k) }
{
    for j in 0..k {
        slots[to + j] = slots[from + j];
    }
}

// Adds row `from` to row `to` where both together have room: row `to` moves right by from.len, and one pass merges to the left.
fn add_roomy(slots: &mut [u16], to: Row, from: Row) -> usize
    requires { CanMerge slots.old to.at to.len from.at from.len }
    ensures { (result ≡ length (row_sum slots.old to.at to.len from.at from.len)) × (slots.new ≡ put_row slots.old to.at (to.len + from.len) (row_sum slots.old to.at to.len from.at from.len)) }
{
    move_stretch(slots, to.at, to.at + from.len, to.len);
    let m = merge_forward(slots, to, from);
    // one of the two rests is empty
    let more = to.len - m.i;
    bring(slots, to.at + m.n, to.at + from.len + m.i, more);
    let last = from.len - m.j;
    bring(slots, to.at + m.n + more, from.at + m.j, last);
    let n = m.n + more + last;
    clear(slots, to.at + n, to.at + to.len + from.len);
    n
}

// Adds row `from` to row `to` where both together have no room: the sum is counted first, then laid from the top and from the bottom.
fn add_tight(slots: &mut [u16], to: Row, from: Row) -> Option<usize>
    requires { CanAdd slots.old to.at to.len from.at from.len to.cap }
    ensures { (result ≡ sum_in to.cap (row_sum slots.old to.at to.len from.at from.len)) × (slots.new ≡ added_to slots.old to.at to.cap (row_sum slots.old to.at to.len from.at from.len)) }
{
    let n = sum_length(to.numbers(slots), from.numbers(slots));
    if to.cap < n {
        return None;
    }
    merge_up(slots, to, from, n);
    merge_on(slots, to, from, n);
    clear(slots, to.at + n, to.at + to.cap);
    Some(n)
}

// Adds row `from` to row `to`, if the sum has room in the places of `to`, and answers how many numbers it has; else nothing changes.
pub fn add_assign(slots: &mut [u16], to: Row, from: Row) -> Option<usize>
    requires { CanAdd slots.old to.at to.len from.at from.len to.cap }
    ensures { (result ≡ sum_in to.cap (row_sum slots.old to.at to.len from.at from.len)) × (slots.new ≡ added_to slots.old to.at to.cap (row_sum slots.old to.at to.len from.at from.len)) }
{
    if from.len == 1 {
        let x = slots[from.at];
        return add_one(slots, to, x);
    }
    if from.len <= to.cap - to.len {
        return Some(add_roomy(slots, to, from));
    }
    add_tight(slots, to, from)
}
