// A store as its functions take it: the head's numbers and the ten lent slices, which always travel together.
// `inline(always)`: a store handed by reference to a function that is not inlined is laid out in memory first (docs/DECISIONS.md, "Form").
ghost use Rattle.std.specs.Prelude.{◌≡◌, ◌<◌, length, get_or};
ghost use Rattle.laws.specs.Parts.{row_of};
ghost use Rattle.store_head.specs.Lent.{seen, lent};
ghost use Rattle.store_head.specs.Query.{InSlots};

use crate::Numbers;
use permutation::{HomeColumn, HomeRow, LogicalColumn, LogicalRow};

// A store lent to be asked: nothing in it can change.
#[derive(Clone, Copy)]
pub struct Store<'a> {
    pub head: Numbers,
    pub slots: &'a [u16],
    pub counts: &'a [u16],
    pub row_homes: &'a [u32],
    pub row_logicals: &'a [u32],
    pub column_homes: &'a [u16],
    pub column_logicals: &'a [u16],
    pub marks: &'a [u8],
    pub starts: &'a [u64],
    pub entries: &'a [u32],
    pub words: &'a [u64],
}

// A store lent to be changed. A change writes its slices one after another and is well-formed again only at its end: so that fact is a clause, not an invariant.
#[derive(Drop)]
pub struct StoreMut<'a> {
    pub head: Numbers,
    pub slots: &'a mut [u16],
    pub counts: &'a mut [u16],
    pub row_homes: &'a mut [u32],
    pub row_logicals: &'a mut [u32],
    pub column_homes: &'a mut [u16],
    pub column_logicals: &'a mut [u16],
    pub marks: &'a mut [u8],
    pub starts: &'a mut [u64],
    pub entries: &'a mut [u32],
    pub words: &'a mut [u64],
}

impl<'a> Store<'a> {
    // What home row y lists: a part of the lent slots, which hold `head.slots` places for each row.
    pub fn row(&self, y: HomeRow) -> &'a [u16]
        requires { InSlots self.now.slots.now self.now.counts.now self.now.head.slots y.0 }
        ensures { result.now ≡ row_of self.now.slots.now self.now.counts.now self.now.head.slots y.0 }
    {
        let i = y.0 as usize;
        let at = i * self.head.slots as usize;
        let len = self.counts[i] as usize;
        &self.slots[at..at + len]
    }
}

impl StoreMut<'_> {
    // Where logical row `r` is kept.
    pub fn home_row(&self, r: LogicalRow) -> HomeRow
        requires { r.0 < length self.now.row_homes.now }
        ensures { result.0 ≡ get_or self.now.row_homes.now r.0 0 }
    {
        permutation::home_row(self.row_homes, r)
    }

    // Where logical column `c` is kept.
    pub fn home_column(&self, c: LogicalColumn) -> HomeColumn
        requires { c.0 < length self.now.column_homes.now }
        ensures { result.0 ≡ get_or self.now.column_homes.now c.0 0 }
    {
        permutation::home_column(self.column_homes, c)
    }

    // The same store, lent to be asked.
    #[inline(always)]
    pub fn view(&self) -> Store<'_>
        ensures { seen result ≡ lent self.now }
    {
        Store {
            head: self.head,
            slots: self.slots,
            counts: self.counts,
            row_homes: self.row_homes,
            row_logicals: self.row_logicals,
            column_homes: self.column_homes,
            column_logicals: self.column_logicals,
            marks: self.marks,
            starts: self.starts,
            entries: self.entries,
            words: self.words,
        }
    }
}
