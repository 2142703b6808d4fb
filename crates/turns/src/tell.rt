// The line of what one call tells.
ghost use Rattle.std.specs.Prelude.{◌≡◌, ◌≤◌};
ghost use Rattle.store_head.specs.Lent.{lent};
ghost use Rattle.operations.specs.Applied.{part_at};
ghost use Rattle.lines.specs.Line.{line_of};
ghost use Rattle.lines.specs.Wrote.{Wrote};
ghost use Rattle.turns.specs.Said.{said, CanPut};

use lines::Lines;
use operations::Told;
use permutation::LogicalRow;
use store_head::{Refusal, StoreMut};
use table::Op;

// Where in the lent words the row's part begins, for WORDS; 0 for any other operation.
pub fn part_at(store: &StoreMut, op: Op) -> usize
    requires { store.now.head.n ≤ 65535 }
    ensures { result ≡ part_at op (lent store.now) }
{
    match op {
        Op::Words(p) => {
            if store.row_homes.len() <= p.r as usize {
                return 0;
            }
            let y = store.home_row(LogicalRow(p.r)).0 as usize;
            y * tail::words_for(store.head.n)
        }
        _ => 0,
    }
}

// Writes the line of what is told. A list is read from the answer buffer, WORDS' part from the lent words, from place `from` on.
pub fn put_told(
    told: Result<Told, Refusal>,
    from: usize,
    store: &StoreMut,
    answers: &[u32],
    lines: &mut Lines,
)
    requires { CanPut told from store.now.words.now answers.now lines.old }
    ensures { Wrote lines.old lines.new (line_of (said told from store.now.words.now answers.now)) }
{
    match told {
        Ok(Told::Done) => lines.put_ok(),
        Ok(Told::Number(x)) => lines.put_number(x),
        Ok(Told::Sizes(p)) => lines.put_three(p.h, p.w, p.n),
        Ok(Told::List(c)) => lines.put_list(&answers[..c as usize]),
        Ok(Told::Words(c)) => lines.put_list(&store.words[from..from + c as usize]),
        Err(why) => lines.put_no(why.number()),
    }
}
