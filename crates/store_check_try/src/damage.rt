// Damaged buffers.
use crate::print;
use crate::store::{OFF, on};

// Each of the four maps: a number twice, past the end.
pub fn maps() {
    let answers = [
        OFF.damaged(|s| s.row_homes[0] = 0),
        OFF.damaged(|s| s.row_logicals[1] = 2),
        OFF.damaged(|s| s.column_homes[4] = 2),
        OFF.damaged(|s| s.column_logicals[3] = 5),
    ];
    print::line(b"maps", &answers);
}

// A count past the slots, a count of a zero slot; a row that does not rise, with a tail column, with a column not made, with a number after its count.
pub fn rows() {
    let answers = [
        OFF.damaged(|s| s.counts[0] = 3),
        OFF.damaged(|s| s.counts[1] = 2),
        OFF.damaged(|s| s.slots[0] = 2),
        OFF.damaged(|s| s.slots[1] = 1),
        OFF.damaged(|s| s.slots[1] = 5),
        OFF.damaged(|s| s.slots[3] = 1),
    ];
    print::line(b"rows", &answers);
}

// The lowest and the highest padding bit; a bit of the tail, which may be set.
pub fn tail() {
    let answers = [
        OFF.damaged(|s| s.words[0] = 0x4000000000000001),
        OFF.damaged(|s| s.words[1] = 0xa000000000000000),
        OFF.damaged(|s| s.words[0] = 0xc000000000000000),
    ];
    print::line(b"tail", &answers);
}

// With the index off: the first start and the last, the first entry and the last, a mark.
pub fn index_off() {
    let answers = [
        OFF.damaged(|s| s.starts[0] = 1),
        OFF.damaged(|s| s.starts[5] = 1),
        OFF.damaged(|s| s.entries[0] = 1),
        OFF.damaged(|s| s.entries[3] = 1),
        OFF.damaged(|s| s.marks[4] = 1),
    ];
    print::line(b"index_off", &answers);
}

// With the index on: starts that do not rise, a start past the entries, a list too short; an entry past h, twice, missing; a mark that is none;
// then a frozen column with a list, a spent column, a column that lists a row too many: exact and spent.
pub fn index_on() {
    let answers = [
        on().damaged(|s| s.starts[2] = 0),
        on().damaged(|s| s.starts[5] = 8),
        on().damaged(|s| s.starts[1] = 0),
        on().damaged(|s| s.entries[2] = 2),
        on().damaged(|s| s.entries[2] = 0),
        on().damaged(|s| s.entries[0] = 1),
        on().damaged(|s| s.marks[0] = 2),
        on().damaged(|s| s.starts[5] = 4),
        on().damaged(|s| s.marks[0] = 1),
        on().damaged(|s| {
            s.starts = [0, 2, 2, 4, 4, 4, 0];
            s.entries = [0, 1, 0, 1, 0, 0, 0];
        }),
        on().damaged(|s| {
            s.starts = [0, 2, 2, 4, 4, 4, 0];
            s.entries = [0, 1, 0, 1, 0, 0, 0];
            s.marks[0] = 1;
        }),
    ];
    print::line(b"index_on", &answers);
}

// The first place of each buffer that nothing uses, in their order; of the index's with the index on.
pub fn unused() {
    let answers = [
        OFF.damaged(|s| s.slots[4] = 1),
        OFF.damaged(|s| s.counts[2] = 1),
        OFF.damaged(|s| s.row_homes[2] = 1),
        OFF.damaged(|s| s.row_logicals[2] = 1),
        OFF.damaged(|s| s.column_homes[5] = 1),
        OFF.damaged(|s| s.column_logicals[5] = 1),
        on().damaged(|s| s.marks[5] = 1),
        on().damaged(|s| s.starts[6] = 3),
        on().damaged(|s| s.entries[3] = 1),
        OFF.damaged(|s| s.words[2] = 1),
    ];
    print::line(b"unused", &answers);
}
