// The line of a row's sparse columns that hold one, which ITER answers.
ghost use Rattle.std.specs.Prelude.{◌≡◌};
ghost use Rattle.table.specs.Run.{ok};
ghost use Rattle.lines.specs.Line.{line_long};
ghost use Rattle.sparse_vec.specs.Row.{walked};
ghost use Rattle.lengths.specs.Length.{CanMeasureRow};

use crate::number;

// How long the line of the row's logical numbers from a to b-1 is.
pub fn row_length(row: &[u16], logical: &[u16], a: u32, b: u32) -> usize
    requires { CanMeasureRow row.now logical.now }
    ensures { result ≡ line_long (ok (walked logical.now a b row.now)) }
{
    let mut long = 3;
    for z in row {
        long += number::length_within(a, b, logical[*z as usize] as u32);
    }
    long
}
