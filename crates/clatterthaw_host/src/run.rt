// A run, for a host.
ghost use Rattle.store_head.specs.Lent.{store_of, full_of};
ghost use Rattle.clatterthaw_host.specs.Crossing.{numbers_of, running, RunCrossed};

use crate::{PlainHead, PlainRan, cross};
use store_head::{Refusal, StoreMut};

// The run: script records over the store, a line for each into the lent line bytes. It checks the store once, and stops before the first record whose line
// would not fit.
#[unsafe(no_mangle)]
pub extern "C" fn clatterthaw_run(
    p: PlainHead,
    slots: &mut [u16],
    counts: &mut [u16],
    row_homes: &mut [u32],
    row_logicals: &mut [u32],
    column_homes: &mut [u16],
    column_logicals: &mut [u16],
    marks: &mut [u8],
    starts: &mut [u64],
    entries: &mut [u32],
    words: &mut [u64],
    answers: &mut [u32],
    records: &[u8],
    lines: &mut [u8],
) -> PlainRan
    ensures { RunCrossed p result (running p records.now lines.old (full_of (store_of (numbers_of p) slots.old counts.old row_homes.old row_logicals.old column_homes.old column_logicals.old marks.old starts.old entries.old words.old) answers.old)) (λ e. full_of (store_of e slots.new counts.new row_homes.new row_logicals.new column_homes.new column_logicals.new marks.new starts.new entries.new words.new) answers.new) lines.new }
{
    if 1 < p.on {
        return PlainRan {
            head: p,
            no: Refusal::Damaged.number(),
            done: 0,
            written: 0,
        };
    }
    let mut store = StoreMut {
        head: cross::head(p),
        slots,
        counts,
        row_homes,
        row_logicals,
        column_homes,
        column_logicals,
        marks,
        starts,
        entries,
        words,
    };
    let told = script::run(&mut store, answers, records, lines);
    cross::ran(p, store.head, told)
}
