#![tactic(auto)]
// The run: a list of operations as script records over a store, a line for each to lent bytes. It checks the store once and keeps it well-formed by proof.
ghost use Rattle.std.specs.Prelude.{◌≡◌, ◌≤◌, length};
ghost use Rattle.model.specs.WellFormed.{WellFormed};
ghost use Rattle.store_head.specs.Lent.{lent, full_of, SameSlices};
ghost use Rattle.script.specs.Left.{resumed, stands, ran_told, run_of, done_in, written_in};

use lines::Lines;
use store_head::{Refusal, StoreMut};

// Where a run stands: how many record bytes are done, how many line bytes are written.
#[derive(Clone, Copy, PartialEq, Eq)]
pub struct Stand {
    pub done: usize,
    pub written: usize,
}

// The run over a store that is known to be well-formed: how many record bytes are done.
fn run_on(store: &mut StoreMut, answers: &mut [u32], records: &[u8], lines: &mut Lines) -> usize
    requires { WellFormed (lent store.old) }
    ensures told { stands result lines.new.used (full_of (lent store.new) answers.new) lines.new.bytes.now ≡ resumed records.now 0 lines.old.used lines.old.bytes.now (full_of (lent store.old) answers.old) }
    ensures done_in_bounds { result ≤ length records.now }
    ensures same { SameSlices store.old store.new }
    ensures lines_same { lines.new.bytes.ghost_name ≡ lines.old.bytes.ghost_name }
{
    let mut done = 0;
    while let Some(next) = turns::one_record::turn_at(store, answers, records, lines, done) {
        done = next;
    }
    done
}

// The run over any store, any records and any numbers: "It checks once, before the first, and refuses the whole list with 1 if the store is damaged,
// MAKE in it or not, writing nothing; it goes on after any other refusal".
pub fn run(
    store: &mut StoreMut,
    answers: &mut [u32],
    records: &[u8],
    lines: &mut [u8],
) -> Result<Stand, Refusal>
    ensures told { ran_told result (full_of (lent store.new) answers.new) lines.new ≡ run_of records.now lines.old (full_of (lent store.old) answers.old) }
    ensures in_bounds { (done_in result ≤ length records.now) × (written_in result ≤ length lines.new) }
    ensures same { SameSlices store.old store.new }
{
    store_check::whole(store)?;
    let mut to = Lines {
        bytes: lines,
        used: 0,
    };
    let done = run_on(store, answers, records, &mut to);
    Ok(Stand {
        done,
        written: to.used,
    })
}
