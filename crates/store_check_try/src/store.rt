// A small store, and the check on it.
use store_head::{Numbers, Store};

// The head's numbers and the ten buffers, each longer than the numbers ask for.
#[derive(Clone, Copy)]
pub struct Kept {
    pub head: Numbers,
    pub slots: [u16; 7],
    pub counts: [u16; 7],
    pub row_homes: [u32; 7],
    pub row_logicals: [u32; 7],
    pub column_homes: [u16; 7],
    pub column_logicals: [u16; 7],
    pub marks: [u8; 7],
    pub starts: [u64; 7],
    pub entries: [u32; 7],
    pub words: [u64; 7],
}

// Two rows and four columns, of five made; the last two are the tail. Index off.
pub const OFF: Kept = Kept {
    head: Numbers {
        h: 2,
        w: 4,
        n: 2,
        slots: 2,
        made: 5,
        on: false,
    },
    slots: [0, 2, 2, 0, 0, 0, 0],
    counts: [2, 1, 0, 0, 0, 0, 0],
    row_homes: [1, 0, 0, 0, 0, 0, 0],
    row_logicals: [1, 0, 0, 0, 0, 0, 0],
    column_homes: [2, 0, 1, 4, 3, 0, 0],
    column_logicals: [1, 2, 0, 4, 3, 0, 0],
    marks: [0; 7],
    starts: [0; 7],
    entries: [0; 7],
    words: [0x4000000000000000, 0x8000000000000000, 0, 0, 0, 0, 0],
};

// The same with the index on: home column 0 lists row 0, home column 2 lists rows 0 and 1.
pub fn on() -> Kept {
    Kept {
        head: Numbers {
            on: true,
            ..OFF.head
        },
        starts: [0, 1, 1, 3, 3, 3, 0],
        entries: [0, 0, 1, 0, 0, 0, 0],
        ..OFF
    }
}

impl Kept {
    // All of it, lent.
    fn whole(&self) -> Store<'_> {
        Store {
            head: self.head,
            slots: &self.slots,
            counts: &self.counts,
            row_homes: &self.row_homes,
            row_logicals: &self.row_logicals,
            column_homes: &self.column_homes,
            column_logicals: &self.column_logicals,
            marks: &self.marks,
            starts: &self.starts,
            entries: &self.entries,
            words: &self.words,
        }
    }

    // Each buffer just long enough for the index on, lent.
    pub fn exact(&self) -> Store<'_> {
        Store {
            head: self.head,
            slots: &self.slots[..4],
            counts: &self.counts[..2],
            row_homes: &self.row_homes[..2],
            row_logicals: &self.row_logicals[..2],
            column_homes: &self.column_homes[..5],
            column_logicals: &self.column_logicals[..5],
            marks: &self.marks[..5],
            starts: &self.starts[..6],
            entries: &self.entries[..3],
            words: &self.words[..2],
        }
    }

    // The check, of whole buffers.
    pub fn well_formed(&self) -> bool {
        store_check::well_formed(&self.whole())
    }

    // The check, of whole buffers, after this damage.
    pub fn damaged<D: FnOnce(&mut Kept)>(mut self, damage: D) -> bool
        requires { D.IsAlwaysCallable damage }
    {
        damage(&mut self);
        self.well_formed()
    }
}
