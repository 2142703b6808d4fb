#![tactic(auto)]
// The script program (01, "The script program"): records on standard input, a line for each on standard output. What matters is in the library: here are
// the buffers that are lent, and reading and writing in pieces.
mod pieces;
mod pump;

use sparse_matrix::StoreMut;

// All of standard input, over the store. A proved loop has to end, and nothing says that the input does: the count of turns is one that no run uses up.
fn session(
    rt: &HostRuntime,
    store: &mut StoreMut,
    answers: &mut [u32],
    buf: &mut [u8],
    lines: &mut [u8],
) {
    let mut have = 0;
    for _ in 0..u64::MAX {
        let end = pieces::more(rt, buf, have);
        let more = have < end;
        let ready = pieces::ready(buf, end, more);
        if !pump::pump(store, answers, &buf[..ready], lines) || !more {
            return;
        }
        have = pieces::shift(buf, ready, end);
    }
}

// "It lends 256 rows, 256 columns, 257 index starts, 8,192 slot entries, 1,024 tail words, 4,096 index entries, 256 answer places." A record has at most
// 65,538 bytes, so half of `buf` holds any; a line of this room is far shorter than `lines`.
fn main(rt: HostRuntime) {
    let mut store = StoreMut {
        head: sparse_matrix::empty(),
        slots: &mut [0; 8192],
        counts: &mut [0; 256],
        row_homes: &mut [0; 256],
        row_logicals: &mut [0; 256],
        column_homes: &mut [0; 256],
        column_logicals: &mut [0; 256],
        marks: &mut [0; 256],
        starts: &mut [0; 257],
        entries: &mut [0; 4096],
        words: &mut [0; 1024],
    };
    let mut answers = [0; 256];
    let mut buf = [0; 131072];
    let mut lines = [0; 65536];
    session(&rt, &mut store, &mut answers, &mut buf, &mut lines);
}
