// The line of the rows that hold one in a column, which COLONES answers.
// Its loop is `row_length`'s over other widths. One generic for both is no plainer: u32 has no From to usize, so it takes a trait, and a third list between `walked` and `shown`, for three lines.
ghost use Rattle.std.specs.Prelude.{◌≡◌};
ghost use Rattle.table.specs.Run.{ok};
ghost use Rattle.lines.specs.Line.{line_long};
ghost use Rattle.arraymap.specs.Show.{shown};
ghost use Rattle.lengths.specs.Length.{CanMeasureColumn};

use crate::number;

// How long the line of the logical numbers from a to b-1 of the list's rows is. The line has them rising, the list by home row: a sum sees no order.
pub fn column_length(
    list: &[u32],
    homes: &[u32],
    logical: &[u32],
    h: usize,
    a: u32,
    b: u32,
) -> usize
    requires { CanMeasureColumn list.now homes.now logical.now h }
    ensures { result ≡ line_long (ok (shown logical.now a b list.now)) }
{
    let mut long = 3;
    for y in list {
        long += number::length_within(a, b, logical[*y as usize]);
    }
    long
}
