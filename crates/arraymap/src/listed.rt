// The index against the rows that it is over: the tests that lean on lists that rise.
ghost use Rattle.arraymap.specs.Steps.{Lists, lists-prop};

use crate::rows::HomeRows;

// An index over home rows, of which each list is known to rise, with rows below h only.
#[derive(Clone, Copy)]
pub struct Listed<'a> {
    pub rows: HomeRows<'a>,
    pub starts: &'a [u64],
    pub entries: &'a [u32],
    ghost right: { Lists starts.now entries.now rows.m rows.h } by { lists-prop starts.now entries.now rows.m rows.h },
}

impl<'a> Listed<'a> {
    ghost use Rattle.std.specs.Prelude.{◌≡◌, ◌<◌, length};
    ghost use Rattle.laws.specs.Rows.{Rising};
    ghost use Rattle.laws.specs.Parts.{row_of};
    ghost use Rattle.laws.specs.Tests.{all_below};
    ghost use Rattle.arraymap.specs.Index.{list_at};
    ghost use Rattle.arraymap.specs.Check.{row_listed, holds_at, exact_at};
    ghost use Rattle.arraymap.specs.Steps.{Below, CanExact};

    // The list of home column z.
    fn list(&self, z: usize) -> &'a [u32]
        requires { z < self.now.rows.m }
        ensures is { result.now ≡ list_at self.now.starts.now self.now.entries.now z }
        ensures rising { Rising result.now }
        ensures below { Below result.now self.now.rows.h }
    {
        crate::get(self.starts, self.entries, z)
    }

    // Whether row y is listed at every column of the row.
    fn row_listed(&self, y: usize) -> bool
        requires { y < self.now.rows.h }
        ensures { result ≡ row_listed self.now.starts.now self.now.entries.now (row_of self.now.rows.slots.now self.now.rows.counts.now self.now.rows.k) y }
    {
        let x = y as u32;
        let mut near = 0;
        for z in self.rows.row(y) {
            if !sparse_vec::get_near(self.list(*z as usize), x, &mut near) {
                return false;
            }
        }
        true
    }

    // Whether each row is listed at all of its columns.
    pub fn rows_listed(&self) -> bool
        ensures { result ≡ all_below self.now.rows.h (row_listed self.now.starts.now self.now.entries.now (row_of self.now.rows.slots.now self.now.rows.counts.now self.now.rows.k)) }
    {
        (0..self.rows.h).all(|y| self.row_listed(y))
    }

    // Whether every row of the list of column z holds z.
    fn list_exact(&self, z: usize) -> bool
        requires { z < self.now.rows.m }
        ensures { result ≡ all_below (length (list_at self.now.starts.now self.now.entries.now z)) (holds_at (row_of self.now.rows.slots.now self.now.rows.counts.now self.now.rows.k) z (list_at self.now.starts.now self.now.entries.now z)) }
    {
        let mut near = 0;
        for y in self.list(z) {
            if !self.rows.holds(*y as usize, z, &mut near) {
                return false;
            }
        }
        true
    }

    // Whether each column that is sparse and marked exact lists only rows that hold it.
    pub fn exact_ok(&self, logical: &[u16], marks: &[u8], edge: usize) -> bool
        requires { CanExact self.now.rows.m logical.now marks.now }
        ensures { result ≡ all_below self.now.rows.m (exact_at (row_of self.now.rows.slots.now self.now.rows.counts.now self.now.rows.k) self.now.starts.now self.now.entries.now logical.now marks.now edge) }
    {
        for z in 0..self.rows.m {
            if (logical[z] as usize) < edge && marks[z] == 0 && !self.list_exact(z) {
                return false;
            }
        }
        true
    }
}
