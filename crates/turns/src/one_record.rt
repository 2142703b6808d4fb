// One record of a run: whether its line fits is known before anything is written, so a record whose line does not fit leaves no trace.
ghost use Rattle.std.specs.Prelude.{◌≡◌};
ghost use Rattle.table.specs.Refusals.{refused};
ghost use Rattle.model.specs.Store.{Full};
ghost use Rattle.model.specs.WellFormed.{WellFormed};
ghost use Rattle.model.specs.Step.{step};
ghost use Rattle.store_head.specs.Lent.{lent, full_of, SameSlices};
ghost use Rattle.store_head.specs.Refused.{number_of};
ghost use Rattle.turns.specs.Turned.{turn_by, turn_of, turn_told};

use crate::{measure, tell};
use lines::Lines;
use records::Read;
use store_head::{Refusal, StoreMut};
use table::Op;

// A record that is no operation: the line `no k`, if it fits, whatever the store holds.
fn refuse(lines: &mut Lines, why: Refusal, next: usize) -> Option<usize>
    ensures told { (f : Full) → turn_told result f lines.new ≡ turn_by (refused (number_of why)) next lines.old.used lines.old.bytes.now f }
    ensures lines_same { lines.new.bytes.ghost_name ≡ lines.old.bytes.ghost_name }
{
    let k = why.number();
    if lines.room() < lines::no_length(k) {
        return None;
    }
    lines.put_no(k);
    Some(next)
}

// A record that is an operation: its line and its work, if the line fits.
fn perform(
    store: &mut StoreMut,
    answers: &mut [u32],
    lines: &mut Lines,
    op: Op,
    next: usize,
) -> Option<usize>
    requires { WellFormed (lent store.old) }
    ensures told { turn_told result (full_of (lent store.new) answers.new) lines.new ≡ turn_by (step op (full_of (lent store.old) answers.old)) next lines.old.used lines.old.bytes.now (full_of (lent store.old) answers.old) }
    ensures same { SameSlices store.old store.new }
    ensures lines_same { lines.new.bytes.ghost_name ≡ lines.old.bytes.ghost_name }
{
    if !measure::has_room(store, answers, op, lines.room()) {
        return None;
    }
    let from = tell::part_at(store, op);
    let told = operations::apply(store, answers, op);
    tell::put_told(told, from, store, answers, lines);
    Some(next)
}

// The record at a position of the script, whatever stands there: where the next one starts, or None where the run stops before it and nothing has changed.
pub fn turn_at(
    store: &mut StoreMut,
    answers: &mut [u32],
    records: &[u8],
    lines: &mut Lines,
    at: usize,
) -> Option<usize>
    requires { WellFormed (lent store.old) }
    ensures told { turn_told result (full_of (lent store.new) answers.new) lines.new ≡ turn_of records.now at lines.old.used lines.old.bytes.now (full_of (lent store.old) answers.old) }
    ensures same { SameSlices store.old store.new }
    ensures lines_same { lines.new.bytes.ghost_name ≡ lines.old.bytes.ghost_name }
{
    match records::read_at(records, at) {
        Read::Whole(found, next) => perform(store, answers, lines, found.op, next),
        Read::Wrong(next) => refuse(lines, Refusal::Record, next),
        Read::Cut => refuse(lines, Refusal::Cut, records.len()),
        Read::End => None,
    }
}
