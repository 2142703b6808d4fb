// The head's numbers, and the lengths lent.
use crate::print;
use crate::store::{OFF, on};
use store_check::well_formed;
use store_head::{Numbers, Store};

// The store as it is, index off and on; with each buffer just long enough, index off and on; no store at all.
pub fn right() {
    let none = Store {
        head: Numbers::default(),
        slots: &[],
        counts: &[],
        row_homes: &[],
        row_logicals: &[],
        column_homes: &[],
        column_logicals: &[],
        marks: &[],
        starts: &[0],
        entries: &[],
        words: &[],
    };
    let answers = [
        OFF.well_formed(),
        on().well_formed(),
        well_formed(&Store {
            entries: &[],
            ..OFF.exact()
        }),
        well_formed(&on().exact()),
        well_formed(&none),
    ];
    print::line(b"right", &answers);
}

// Numbers past the limits: the least, and the largest that a u32 holds.
pub fn limits() {
    let answers = [
        OFF.damaged(|s| s.head.h = 65536),
        OFF.damaged(|s| s.head.h = u32::MAX),
        OFF.damaged(|s| s.head.made = 65536),
        OFF.damaged(|s| s.head.made = u32::MAX),
        OFF.damaged(|s| s.head.w = 6),
        OFF.damaged(|s| s.head.n = 5),
        OFF.damaged(|s| s.head.slots = 65536),
        OFF.damaged(|s| s.head.slots = u32::MAX),
    ];
    print::line(b"limits", &answers);
}

// Numbers within the limits that are not this store's: h, made, slots, w and n one off, no tail, the switch. Column 4 was made, so a width of 5 is right.
pub fn sizes() {
    let answers = [
        OFF.damaged(|s| s.head.h = 1),
        OFF.damaged(|s| s.head.made = 4),
        OFF.damaged(|s| s.head.slots = 1),
        OFF.damaged(|s| s.head.slots = 3),
        OFF.damaged(|s| s.head.w = 3),
        OFF.damaged(|s| s.head.w = 5),
        OFF.damaged(|s| s.head.n = 1),
        OFF.damaged(|s| s.head.n = 3),
        OFF.damaged(|s| s.head.n = 0),
        OFF.damaged(|s| s.head.on = true),
        on().damaged(|s| s.head.on = false),
    ];
    print::line(b"sizes", &answers);
}

// Each buffer one place too short, in their order; the entries with the index on.
pub fn short() {
    let off = OFF.exact();
    let on = on();
    let answers = [
        well_formed(&Store {
            slots: &OFF.slots[..3],
            ..off
        }),
        well_formed(&Store {
            counts: &OFF.counts[..1],
            ..off
        }),
        well_formed(&Store {
            row_homes: &OFF.row_homes[..1],
            ..off
        }),
        well_formed(&Store {
            row_logicals: &OFF.row_logicals[..1],
            ..off
        }),
        well_formed(&Store {
            column_homes: &OFF.column_homes[..4],
            ..off
        }),
        well_formed(&Store {
            column_logicals: &OFF.column_logicals[..4],
            ..off
        }),
        well_formed(&Store {
            marks: &OFF.marks[..4],
            ..off
        }),
        well_formed(&Store {
            starts: &OFF.starts[..5],
            ..off
        }),
        well_formed(&Store {
            entries: &on.entries[..2],
            ..on.exact()
        }),
        well_formed(&Store {
            words: &OFF.words[..1],
            ..off
        }),
    ];
    print::line(b"short", &answers);
}
