// A caller's numbers as numbers of the store.
ghost use Rattle.std.specs.Prelude.{◌≡◌, ◌<◌};

use permutation::LogicalColumn;

// A column's number as a logical column: all widths fit 16 bits.
pub fn column(c: u32) -> LogicalColumn
    requires { c < 65536 }
    ensures { result.0 ≡ c }
{
    LogicalColumn(c as u16)
}
