#![tactic(auto)]
// Runs the script on standard input by the library's run, cut at every byte, and again with line bytes for every length: each time over a fresh 0 by 0
// store. After the lines of a run comes a line of this program: how many bytes of the script there were, or how much room for lines, and what the run
// answered.
use sparse_matrix::StoreMut;

// A line of its name and the numbers of the list.
fn line(name: &[u8], list: &[usize]) {
    io::write_all(1, name);
    for n in list {
        io::write_all(1, b" ");
        io::print_decimal(1, *n as u64);
    }
    io::write_all(1, b"\n");
}

// One run over a fresh store of 3 rows, 4 columns and 6 slot entries at most; its lines, and what it answered.
fn one(records: &[u8], lines: &mut [u8]) {
    let mut store = StoreMut {
        head: sparse_matrix::empty(),
        slots: &mut [0; 6],
        counts: &mut [0; 3],
        row_homes: &mut [0; 3],
        row_logicals: &mut [0; 3],
        column_homes: &mut [0; 4],
        column_logicals: &mut [0; 4],
        marks: &mut [0; 4],
        starts: &mut [0; 5],
        entries: &mut [0; 6],
        words: &mut [0; 3],
    };
    match script::run(&mut store, &mut [0; 3], records, lines) {
        Ok(stand) => {
            io::write_all(1, &lines[..stand.written]);
            line(b"done", &[stand.done, stand.written]);
        }
        Err(refusal) => line(b"refused", &[refusal.number() as usize]),
    }
}

// The first k bytes of the script, for each k.
fn cut_everywhere(script: &[u8], lines: &mut [u8]) {
    for k in 0..=script.len() {
        line(b"bytes", &[k]);
        one(&script[..k], lines);
    }
}

// The whole script with k line bytes, for each k.
fn every_room(script: &[u8], lines: &mut [u8]) {
    for k in 0..=lines.len() {
        line(b"room", &[k]);
        one(script, &mut lines[..k]);
    }
}

fn main() {
    let mut bytes = [0; 1024];
    let n = io::read_full(0, &mut bytes);
    let script = &bytes[..n];
    let mut lines = [0; 256];
    cut_everywhere(script, &mut lines);
    every_room(script, &mut lines);
}
