// Where a row is kept.
ghost use Rattle.std.specs.Prelude.{◌≡◌, ◌+◌, ◌≤◌, length};
ghost use Rattle.laws.specs.Parts.{part};

// Where one row stands in the lent numbers: `len` numbers from place `at` on, in a stretch of `cap` places.
#[derive(Clone, Copy)]
pub struct Row {
    pub at: usize,
    pub len: usize,
    pub cap: usize,
}

impl Row {
    // The row's numbers.
    pub fn numbers(self, slots: &[u16]) -> &[u16]
        requires { self.at + self.len ≤ length slots.now }
        ensures { result.now ≡ part slots.now self.at self.len }
    {
        &slots[self.at..self.at + self.len]
    }
}
