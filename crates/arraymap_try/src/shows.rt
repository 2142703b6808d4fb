// Lists, and their rows by logical numbers.
ghost use Rattle.std.specs.Prelude.{◌-◌, ◌≤◌, min};
ghost use Rattle.arraymap.specs.Show.{CanShow, CanList};

use crate::print;

// The list of a column.
fn gets(starts: &[u64], entries: &[u32], z: usize)
    requires { CanList starts.now entries.now z }
{
    io::write_all(1, b"list");
    print::number(z as u64);
    io::write_all(1, b":");
    print::numbers(arraymap::get(starts, entries, z));
    io::write_all(1, b"\n");
}

pub fn lists() {
    let starts: [u64; 6] = [0, 2, 2, 5, 7, 0];
    let entries: [u32; 9] = [0, 2, 0, 1, 4, 2, 4, 0, 0];
    for z in 0..4 {
        gets(&starts, &entries, z);
    }
}

// The rows of a list by their logical numbers: how many, how many were written, and the answers, of which those not written stay 77.
fn shows(name: &[u8], list: &[u32], homes: &[u32], logical: &[u32], h: usize, a: u32, b: u32)
    requires can_show { CanShow list.now homes.now logical.now h }
    requires a_bound { min b h - a ≤ 8 }
{
    let mut answers: [u32; 8] = [77; 8];
    io::write_all(1, name);
    print::number(arraymap::count_shown(list, homes, logical, h, a, b) as u64);
    print::number(arraymap::show(list, homes, logical, h, a, b, &mut answers) as u64);
    io::write_all(1, b" |");
    print::numbers(&answers);
    io::write_all(1, b"\n");
}

// Rows 0, 1 and 4 of five, through a turned map: by insertion.
pub fn short_list() {
    let list: [u32; 3] = [0, 1, 4];
    let homes: [u32; 5] = [2, 0, 4, 1, 3];
    let logical: [u32; 5] = [1, 3, 0, 4, 2];
    shows(b"all rows:", &list, &homes, &logical, 5, 0, 5);
    shows(b"not b itself:", &list, &homes, &logical, 5, 1, 3);
    shows(b"empty range:", &list, &homes, &logical, 5, 3, 3);
    shows(b"a > b:", &list, &homes, &logical, 5, 4, 2);
    shows(b"b past h:", &list, &homes, &logical, 5, 2, 4000000000);
}

// All of forty rows but 5, 6, 30 and 31.
const LIST: [u32; 36] = [
    0, 1, 2, 3, 4, 7, 8, 9, 10, 11, 12, 13, 14, 15, 16, 17, 18, 19, 20, 21, 22, 23, 24, 25, 26, 27,
    28, 29, 32, 33, 34, 35, 36, 37, 38, 39,
];

// The map that turns forty rows round.
const TURNED: [u32; 40] = [
    39, 38, 37, 36, 35, 34, 33, 32, 31, 30, 29, 28, 27, 26, 25, 24, 23, 22, 21, 20, 19, 18, 17, 16,
    15, 14, 13, 12, 11, 10, 9, 8, 7, 6, 5, 4, 3, 2, 1, 0,
];

// The long list through the map: by a sweep.
pub fn long_list() {
    shows(b"long list:", &LIST, &TURNED, &TURNED, 40, 4, 12);
    shows(
        b"long list, b past h:",
        &LIST,
        &TURNED,
        &TURNED,
        40,
        33,
        4000000000,
    );
    shows(
        b"long list, empty range:",
        &LIST,
        &TURNED,
        &TURNED,
        40,
        9,
        9,
    );
}
