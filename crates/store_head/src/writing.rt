// What each kind of change is lent: its slices that it writes as `&mut`, the others as `&`, since a host lends those `const` (`clatterthaw_set` and its like). A change reads the whole
// store, so each has all ten.
// `inline(always)`: a store handed by reference to a function that is not inlined is laid out in memory first (docs/DECISIONS.md, "Form").
ghost use Rattle.std.specs.Prelude.{◌≡◌, ◌<◌, length, get_or};
ghost use Rattle.store_head.specs.Lent.{seen};
ghost use Rattle.store_head.specs.Writing.{cells, sums, row_maps, column_maps, index, shape};

use crate::{Numbers, Store};
use permutation::{HomeRow, LogicalRow};

// SET and FREEZE write lists, counts and words.
#[derive(Drop)]
pub struct CellsMut<'a> {
    pub head: Numbers,
    pub slots: &'a mut [u16],
    pub counts: &'a mut [u16],
    pub row_homes: &'a [u32],
    pub row_logicals: &'a [u32],
    pub column_homes: &'a [u16],
    pub column_logicals: &'a [u16],
    pub marks: &'a [u8],
    pub starts: &'a [u64],
    pub entries: &'a [u32],
    pub words: &'a mut [u64],
}

impl CellsMut<'_> {
    // The same store, lent to be asked.
    #[inline(always)]
    pub fn view(&self) -> Store<'_>
        ensures { seen result ≡ cells self.now }
    {
        Store {
            head: self.head,
            slots: self.slots,
            counts: self.counts,
            row_homes: self.row_homes,
            row_logicals: self.row_logicals,
            column_homes: self.column_homes,
            column_logicals: self.column_logicals,
            marks: self.marks,
            starts: self.starts,
            entries: self.entries,
            words: self.words,
        }
    }
}

// ADD writes lists, counts, words and the marks of the index.
#[derive(Drop)]
pub struct SumMut<'a> {
    pub head: Numbers,
    pub slots: &'a mut [u16],
    pub counts: &'a mut [u16],
    pub row_homes: &'a [u32],
    pub row_logicals: &'a [u32],
    pub column_homes: &'a [u16],
    pub column_logicals: &'a [u16],
    pub marks: &'a mut [u8],
    pub starts: &'a [u64],
    pub entries: &'a [u32],
    pub words: &'a mut [u64],
}

impl SumMut<'_> {
    // The same store, lent to be asked.
    #[inline(always)]
    pub fn view(&self) -> Store<'_>
        ensures { seen result ≡ sums self.now }
    {
        Store {
            head: self.head,
            slots: self.slots,
            counts: self.counts,
            row_homes: self.row_homes,
            row_logicals: self.row_logicals,
            column_homes: self.column_homes,
            column_logicals: self.column_logicals,
            marks: self.marks,
            starts: self.starts,
            entries: self.entries,
            words: self.words,
        }
    }
}

// SWAPR writes the rows' maps.
#[derive(Drop)]
pub struct RowMapsMut<'a> {
    pub head: Numbers,
    pub slots: &'a [u16],
    pub counts: &'a [u16],
    pub row_homes: &'a mut [u32],
    pub row_logicals: &'a mut [u32],
    pub column_homes: &'a [u16],
    pub column_logicals: &'a [u16],
    pub marks: &'a [u8],
    pub starts: &'a [u64],
    pub entries: &'a [u32],
    pub words: &'a [u64],
}

impl RowMapsMut<'_> {
    // The same store, lent to be asked.
    #[inline(always)]
    pub fn view(&self) -> Store<'_>
        ensures { seen result ≡ row_maps self.now }
    {
        Store {
            head: self.head,
            slots: self.slots,
            counts: self.counts,
            row_homes: self.row_homes,
            row_logicals: self.row_logicals,
            column_homes: self.column_homes,
            column_logicals: self.column_logicals,
            marks: self.marks,
            starts: self.starts,
            entries: self.entries,
            words: self.words,
        }
    }
}

// SWAPC writes the columns' maps.
#[derive(Drop)]
pub struct ColumnMapsMut<'a> {
    pub head: Numbers,
    pub slots: &'a [u16],
    pub counts: &'a [u16],
    pub row_homes: &'a [u32],
    pub row_logicals: &'a [u32],
    pub column_homes: &'a mut [u16],
    pub column_logicals: &'a mut [u16],
    pub marks: &'a [u8],
    pub starts: &'a [u64],
    pub entries: &'a [u32],
    pub words: &'a [u64],
}

impl ColumnMapsMut<'_> {
    // The same store, lent to be asked.
    #[inline(always)]
    pub fn view(&self) -> Store<'_>
        ensures { seen result ≡ column_maps self.now }
    {
        Store {
            head: self.head,
            slots: self.slots,
            counts: self.counts,
            row_homes: self.row_homes,
            row_logicals: self.row_logicals,
            column_homes: self.column_homes,
            column_logicals: self.column_logicals,
            marks: self.marks,
            starts: self.starts,
            entries: self.entries,
            words: self.words,
        }
    }
}

// ON and OFF write the index.
#[derive(Drop)]
pub struct IndexMut<'a> {
    pub head: Numbers,
    pub slots: &'a [u16],
    pub counts: &'a [u16],
    pub row_homes: &'a [u32],
    pub row_logicals: &'a [u32],
    pub column_homes: &'a [u16],
    pub column_logicals: &'a [u16],
    pub marks: &'a mut [u8],
    pub starts: &'a mut [u64],
    pub entries: &'a mut [u32],
    pub words: &'a [u64],
}

impl IndexMut<'_> {
    // The same store, lent to be asked.
    #[inline(always)]
    pub fn view(&self) -> Store<'_>
        ensures { seen result ≡ index self.now }
    {
        Store {
            head: self.head,
            slots: self.slots,
            counts: self.counts,
            row_homes: self.row_homes,
            row_logicals: self.row_logicals,
            column_homes: self.column_homes,
            column_logicals: self.column_logicals,
            marks: self.marks,
            starts: self.starts,
            entries: self.entries,
            words: self.words,
        }
    }
}

// RESIZE writes lists, counts, words and the rows' maps.
#[derive(Drop)]
pub struct ShapeMut<'a> {
    pub head: Numbers,
    pub slots: &'a mut [u16],
    pub counts: &'a mut [u16],
    pub row_homes: &'a mut [u32],
    pub row_logicals: &'a mut [u32],
    pub column_homes: &'a [u16],
    pub column_logicals: &'a [u16],
    pub marks: &'a [u8],
    pub starts: &'a [u64],
    pub entries: &'a [u32],
    pub words: &'a mut [u64],
}

impl ShapeMut<'_> {
    // The same store, lent to be asked.
    #[inline(always)]
    pub fn view(&self) -> Store<'_>
        ensures { seen result ≡ shape self.now }
    {
        Store {
            head: self.head,
            slots: self.slots,
            counts: self.counts,
            row_homes: self.row_homes,
            row_logicals: self.row_logicals,
            column_homes: self.column_homes,
            column_logicals: self.column_logicals,
            marks: self.marks,
            starts: self.starts,
            entries: self.entries,
            words: self.words,
        }
    }

    // Where logical row `r` is kept.
    pub fn home_row(&self, r: LogicalRow) -> HomeRow
        requires { r.0 < length self.now.row_homes.now }
        ensures { result.0 ≡ get_or self.now.row_homes.now r.0 0 }
    {
        permutation::home_row(self.row_homes, r)
    }
}
