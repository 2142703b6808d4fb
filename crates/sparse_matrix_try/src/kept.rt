// A small store: its head's numbers and the ten buffers.
use sparse_matrix::Store;
use store_head::Numbers;

#[derive(Clone, Copy)]
pub struct Kept {
    pub head: Numbers,
    pub slots: [u16; 4],
    pub counts: [u16; 2],
    pub row_homes: [u32; 2],
    pub row_logicals: [u32; 2],
    pub column_homes: [u16; 3],
    pub column_logicals: [u16; 3],
    pub marks: [u8; 3],
    pub starts: [u64; 4],
    pub entries: [u32; 4],
    pub words: [u64; 2],
}

// 2 rows, 3 columns, the last in the tail. Row 0 is kept as home row 1 and row 1 as home row 0; columns 0, 1, 2 as home columns 2, 0, 1.
// Row 0 holds one in column 0; row 1 in columns 0, 1 and 2. Index off.
pub const OFF: Kept = Kept {
    head: Numbers {
        h: 2,
        w: 3,
        n: 1,
        slots: 2,
        made: 3,
        on: false,
    },
    slots: [0, 2, 2, 0],
    counts: [2, 1],
    row_homes: [1, 0],
    row_logicals: [1, 0],
    column_homes: [2, 0, 1],
    column_logicals: [1, 2, 0],
    marks: [0; 3],
    starts: [0; 4],
    entries: [0; 4],
    words: [0x8000000000000000, 0],
};

// The same with the index on: home column 0 lists home row 0, home column 2 lists both.
pub fn on() -> Kept {
    Kept {
        head: Numbers {
            on: true,
            ..OFF.head
        },
        starts: [0, 1, 1, 3],
        entries: [0, 0, 1, 0],
        ..OFF
    }
}

impl Kept {
    // The same after this damage.
    pub fn damaged<D: FnOnce(&mut Kept)>(mut self, damage: D) -> Kept
        requires { D.IsAlwaysCallable damage }
    {
        damage(&mut self);
        self
    }

    // The store, lent to be asked.
    pub fn view(&self) -> Store<'_> {
        Store {
            head: self.head,
            slots: &self.slots,
            counts: &self.counts,
            row_homes: &self.row_homes,
            row_logicals: &self.row_logicals,
            column_homes: &self.column_homes,
            column_logicals: &self.column_logicals,
            marks: &self.marks,
            starts: &self.starts,
            entries: &self.entries,
            words: &self.words,
        }
    }
}
