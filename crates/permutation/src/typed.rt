// What turns a logical number into a home number and back, and what exchanges two of a kind: for rows and columns apart, so that none is taken for another.
ghost use Rattle.std.specs.Prelude.{◌≡◌, ◌<◌, length, get_or};
ghost use Rattle.permutation.specs.Maps.{CanSwap, swapped, turned};

use crate::any_map::swap;
use crate::{HomeColumn, HomeRow, LogicalColumn, LogicalRow, MapNumber};

// Where logical row `r` is kept.
pub fn home_row(homes: &[u32], r: LogicalRow) -> HomeRow
    requires { r.0 < length homes.now }
    ensures { result.0 ≡ get_or homes.now r.0 0 }
{
    HomeRow(homes[r.0.place()])
}

// Which logical row is kept at home row `y`.
pub fn logical_row(logical: &[u32], y: HomeRow) -> LogicalRow
    requires { y.0 < length logical.now }
    ensures { result.0 ≡ get_or logical.now y.0 0 }
{
    LogicalRow(logical[y.0.place()])
}

// Where logical column `c` is kept.
pub fn home_column(homes: &[u16], c: LogicalColumn) -> HomeColumn
    requires { c.0 < length homes.now }
    ensures { result.0 ≡ get_or homes.now c.0 0 }
{
    HomeColumn(homes[c.0.place()])
}

// Which logical column is kept at home column `z`.
pub fn logical_column(logical: &[u16], z: HomeColumn) -> LogicalColumn
    requires { z.0 < length logical.now }
    ensures { result.0 ≡ get_or logical.now z.0 0 }
{
    LogicalColumn(logical[z.0.place()])
}

// Logical rows `i` and `j` change their homes (01: "i = j allowed").
pub fn swap_rows(homes: &mut [u32], logical: &mut [u32], i: LogicalRow, j: LogicalRow)
    requires { CanSwap homes.old logical.old i.0 j.0 }
    ensures { (homes.new ≡ swapped homes.old i.0 j.0) × (logical.new ≡ turned homes.old logical.old i.0 j.0) }
{
    swap(homes, logical, i.0, j.0)
}

// Home rows `y` and `z` change what they keep: the same, with the two maps' parts exchanged.
pub fn swap_home_rows(homes: &mut [u32], logical: &mut [u32], y: HomeRow, z: HomeRow)
    requires { CanSwap logical.old homes.old y.0 z.0 }
    ensures { (logical.new ≡ swapped logical.old y.0 z.0) × (homes.new ≡ turned logical.old homes.old y.0 z.0) }
{
    swap(logical, homes, y.0, z.0)
}

// Logical columns `i` and `j` change their homes (01: "i = j allowed").
pub fn swap_columns(homes: &mut [u16], logical: &mut [u16], i: LogicalColumn, j: LogicalColumn)
    requires { CanSwap homes.old logical.old i.0 j.0 }
    ensures { (homes.new ≡ swapped homes.old i.0 j.0) × (logical.new ≡ turned homes.old logical.old i.0 j.0) }
{
    swap(homes, logical, i.0, j.0)
}
