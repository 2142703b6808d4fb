// An index built: at the edges, and over the numbers of an older one.
ghost use Rattle.arraymap.specs.Index.{CanBuild};

use crate::print;

// Builds an index over these starts and entries, and prints the starts, then the entries.
fn builds<const STARTS: usize, const ENTRIES: usize>(
    name: &[u8],
    slots: &[u16],
    counts: &[u16],
    h: usize,
    k: usize,
    m: usize,
    used: usize,
    mut starts: [u64; STARTS],
    mut entries: [u32; ENTRIES],
)
    requires { CanBuild slots.now counts.now h k m used starts entries }
{
    io::write_all(1, name);
    arraymap::build(slots, counts, h, k, m, used, &mut starts, &mut entries);
    print::numbers(&starts);
    io::write_all(1, b" |");
    print::numbers(&entries);
    io::write_all(1, b"\n");
}

pub fn edges() {
    builds(b"no rows:", &[0], &[0], 0, 2, 2, 0, [5, 6, 7, 0], [0, 0]);
    builds(
        b"no ones:",
        &[0; 6],
        &[0; 3],
        3,
        2,
        2,
        1,
        [1, 1, 1, 0],
        [9, 0],
    );
    builds(
        b"last row, last column:",
        &[0, 0, 2],
        &[0, 0, 1],
        3,
        1,
        3,
        0,
        [0; 4],
        [0],
    );
    builds(
        b"every row in one column:",
        &[1; 4],
        &[1; 4],
        4,
        1,
        3,
        0,
        [0; 5],
        [0; 6],
    );
    builds(
        b"full:",
        &[0, 1, 2, 0, 1, 2],
        &[3, 3],
        2,
        3,
        3,
        0,
        [0; 4],
        [0; 6],
    );
}

// Rows {0,2} {2} {0,3} {} {2,3}, over the numbers of an older index.
pub fn rebuilt() {
    builds(
        b"rebuilt:",
        &[0, 2, 0, 2, 0, 0, 0, 3, 0, 0, 0, 0, 2, 3, 0],
        &[2, 1, 2, 0, 2],
        5,
        3,
        4,
        8,
        [9, 9, 9, 9, 9, 0],
        [8, 8, 8, 8, 8, 8, 8, 8, 0],
    );
}
