#![tactic(auto)]
// Runs a script over a store with less room than the script program lends: 4 rows, 80 columns, 12 slot entries, 5 index entries, 6 tail words, 2 answer
// places. So 12, 13, 14 and 15 come early, and what RESIZE frees is used again.
mod show;

ghost use Rattle.std.specs.Prelude.{◌≤◌, ◌<◌, length};

use operations::Told;
use records::Read;
use sparse_matrix::{Refusal, StoreMut};
use table::Op;

// One operation and its line. That of WORDS is the row's part of the lent words.
fn step(store: &mut StoreMut, answers: &mut [u32], op: Op) {
    match (operations::call(store, answers, op), op) {
        (Ok(Told::Words(_)), Op::Words(p)) => {
            show::words(sparse_matrix::get_sub_row(&store.view(), p.r, p.a).unwrap_or(&[]))
        }
        (Ok(told), _) => show::told(told, answers),
        (Err(refusal), _) => show::refused(refusal),
    }
}

// One record and its line; then where reading goes on.
fn turn(store: &mut StoreMut, answers: &mut [u32], script: &[u8], at: usize) -> usize
    requires { at < length script.now }
    ensures { (at < result) × (result ≤ length script.now) }
{
    match records::read_at(script, at) {
        Read::Whole(record, next) => {
            step(store, answers, record.op);
            next
        }
        Read::Wrong(next) => {
            show::refused(Refusal::Record);
            next
        }
        Read::Cut => {
            show::refused(Refusal::Cut);
            script.len()
        }
        Read::End => script.len(),
    }
}

fn main() {
    let mut bytes = [0; 4096];
    let n = io::read_full(0, &mut bytes);
    let script = &bytes[..n];
    let mut answers = [0; 2];
    let mut store = StoreMut {
        head: sparse_matrix::empty(),
        slots: &mut [0; 12],
        counts: &mut [0; 4],
        row_homes: &mut [0; 4],
        row_logicals: &mut [0; 4],
        column_homes: &mut [0; 80],
        column_logicals: &mut [0; 80],
        marks: &mut [0; 80],
        starts: &mut [0; 81],
        entries: &mut [0; 5],
        words: &mut [0; 6],
    };
    let mut at = 0;
    while at < script.len() {
        at = turn(&mut store, &mut answers, script, at);
    }
}
