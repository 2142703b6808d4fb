// The home rows as they are lent: row y stands in the slots from y * k on, as long as counts[y] says.
ghost use Rattle.arraymap.specs.Index.{Rows, rows-prop};

// h rows of at most k home columns each, all of them below m.
#[derive(Clone, Copy)]
pub struct HomeRows<'a> {
    pub slots: &'a [u16],
    pub counts: &'a [u16],
    pub h: usize,
    pub k: usize,
    pub m: usize,
    ghost right: { Rows slots.now counts.now h k m } by { rows-prop slots.now counts.now h k m },
}

impl<'a> HomeRows<'a> {
    ghost use Rattle.std.specs.Prelude.{◌≡◌, ◌<◌};
    ghost use Rattle.laws.specs.Rows.{member};
    ghost use Rattle.laws.specs.Parts.{row_of};
    ghost use Rattle.arraymap.specs.Index.{RowOk};

    // The home columns of home row y.
    pub fn row(&self, y: usize) -> &'a [u16]
        requires { y < self.now.h }
        ensures is { result.now ≡ row_of self.now.slots.now self.now.counts.now self.now.k y }
        ensures ok { RowOk result.now self.now.m }
    {
        let at = y * self.k;
        &self.slots[at..at + self.counts[y] as usize]
    }

    // Whether home row y holds home column z, which may stand near the place where the row before held it.
    pub fn holds(&self, y: usize, z: usize, near: &mut usize) -> bool
        requires { y < self.now.h }
        ensures { result ≡ member z (row_of self.now.slots.now self.now.counts.now self.now.k y) }
    {
        let row = self.row(y);
        match u16::try_from(z) {
            Ok(z) => sparse_vec::get_near(row, z, near),
            Err(_) => false,
        }
    }
}
