// One number put into a row, or taken out.
ghost use Rattle.std.specs.Prelude.{◌≡◌, ◌+◌, ◌≤◌, ◌<◌, length};
ghost use Rattle.laws.specs.Rows.{put_in, take_out};
ghost use Rattle.laws.specs.Parts.{part};
ghost use Rattle.sparse_vec.specs.Row.{put_row, HasRow, CanInsert};
ghost use Rattle.sparse_vec.specs.Passes.{insert_at, remove_at};

use crate::Row;
use crate::find::key_to_internal_index;
use lent::move_stretch;

// Puts x before number i of the len numbers at `at`: those from i on move one place to the right.
pub fn insert_at(slots: &mut [u16], at: usize, len: usize, i: usize, x: u16)
    requires { (i ≤ len) × (at + len < length slots.old) }
    ensures { slots.new ≡ put_row slots.old at (len + 1) (insert_at i x (part slots.old at len)) }
{
    move_stretch(slots, at + i, at + i + 1, len - i);
    slots[at + i] = x;
}

// Takes number i of the len numbers at `at` out: those after it move one place to the left, and the place left over becomes zero.
pub fn remove_at(slots: &mut [u16], at: usize, len: usize, i: usize)
    requires { (i < len) × (at + len ≤ length slots.old) }
    ensures { slots.new ≡ put_row slots.old at len (remove_at i (part slots.old at len)) }
{
    let last = len - 1;
    move_stretch(slots, at + i + 1, at + i, last - i);
    slots[at + last] = 0;
}

// Puts x into the row, and answers the row's length: a number that is there already stays.
pub fn insert(slots: &mut [u16], row: Row, x: u16) -> usize
    requires { CanInsert slots.old row.at row.len row.cap x }
    ensures { (result ≡ length (put_in x (part slots.old row.at row.len))) × (slots.new ≡ put_row slots.old row.at row.cap (put_in x (part slots.old row.at row.len))) }
{
    let Err(i) = key_to_internal_index(row.numbers(slots), x) else {
        return row.len;
    };
    insert_at(slots, row.at, row.len, i, x);
    row.len + 1
}

// Takes x out of the row, and answers the row's length: a number that is not there changes nothing.
pub fn remove(slots: &mut [u16], row: Row, x: u16) -> usize
    requires { HasRow slots.old row.at row.len row.cap }
    ensures { (result ≡ length (take_out x (part slots.old row.at row.len))) × (slots.new ≡ put_row slots.old row.at row.cap (take_out x (part slots.old row.at row.len))) }
{
    let Ok(i) = key_to_internal_index(row.numbers(slots), x) else {
        return row.len;
    };
    remove_at(slots, row.at, row.len, i);
    row.len - 1
}
