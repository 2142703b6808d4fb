// The check of a right index and of damaged ones.
ghost use Rattle.arraymap.specs.Check.{CanCheck};

use crate::print;

// Five rows of at most three numbers, and an index of them over four columns.
#[derive(Clone, Copy)]
struct Case {
    slots: [u16; 15],
    counts: [u16; 5],
    starts: [u64; 6],
    entries: [u32; 9],
    logical: [u16; 4],
    marks: [u8; 5],
    edge: u32,
}

// The index that `rebuilt` builds.
const RIGHT: Case = Case {
    slots: [0, 2, 0, 2, 0, 0, 0, 3, 0, 0, 0, 0, 2, 3, 0],
    counts: [2, 1, 2, 0, 2],
    starts: [0, 2, 2, 5, 7, 0],
    entries: [0, 2, 0, 1, 4, 2, 4, 0, 0],
    logical: [0, 1, 2, 3],
    marks: [0; 5],
    edge: 4,
};

// The check: 1 where it passes.
fn checks(name: &[u8], case: &Case)
    requires { CanCheck case.now.slots case.now.counts 5 3 4 case.now.starts case.now.logical case.now.marks }
{
    io::write_all(1, name);
    let sound = arraymap::sound(
        &case.slots,
        &case.counts,
        5,
        3,
        4,
        &case.starts,
        &case.entries,
        &case.logical,
        &case.marks,
        case.edge,
    );
    print::number(u64::from(sound));
    io::write_all(1, b"\n");
}

pub fn right() {
    checks(b"right:", &RIGHT);
}

// The same with one start damaged.
pub fn starts_damaged() {
    checks(
        b"a start damaged:",
        &Case {
            starts: [0, 2, 3, 5, 7, 0],
            ..RIGHT
        },
    );
    checks(
        b"a start past the end of all entries:",
        &Case {
            starts: [0, 2, 2, 5, u64::MAX, 0],
            ..RIGHT
        },
    );
    checks(
        b"a start not used:",
        &Case {
            starts: [0, 2, 2, 5, 7, 7],
            ..RIGHT
        },
    );
}

// The same with one entry damaged.
pub fn entries_damaged() {
    checks(
        b"an entry damaged:",
        &Case {
            entries: [0, 2, 0, 1, 3, 2, 4, 0, 0],
            ..RIGHT
        },
    );
    checks(
        b"an entry past the end:",
        &Case {
            entries: [0, 2, 0, 1, 4, 2, 4, 0, 1],
            ..RIGHT
        },
    );
}

// The same with one mark damaged.
pub fn marks_damaged() {
    checks(
        b"a mark damaged:",
        &Case {
            marks: [0, 0, 2, 0, 0],
            ..RIGHT
        },
    );
    checks(
        b"a mark not used:",
        &Case {
            marks: [0, 0, 0, 0, 1],
            ..RIGHT
        },
    );
}

// Row 1 has lost its one in column 2, whose list still has it.
pub fn exact_and_spent() {
    let lost = Case {
        counts: [2, 0, 2, 0, 2],
        ..RIGHT
    };
    checks(b"a row too many, exact:", &lost);
    checks(
        b"a row too many, spent:",
        &Case {
            marks: [0, 0, 1, 0, 0],
            ..lost
        },
    );
    checks(b"a row too many, frozen:", &Case { edge: 2, ..lost });
}
