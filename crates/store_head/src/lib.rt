#![tactic(auto)]
// What the store's functions hand each other: the store, lent to be asked or to be changed, answers, refusals, and places in the lent slices.
pub mod places;
mod refusal;
mod store;
mod writing;

pub use refusal::Refusal;
pub use store::{Store, StoreMut};
pub use writing::{CellsMut, ColumnMapsMut, IndexMut, RowMapsMut, ShapeMut, SumMut};

// The matrix's numbers: "h rows and w columns; the last n are the tail", slots for each row, the width at making, the index switch.
#[derive(Clone, Copy, Default, PartialEq, Eq)]
pub struct Numbers {
    pub h: u32,
    pub w: u32,
    pub n: u32,
    pub slots: u32,
    pub made: u32,
    pub on: bool,
}

// The limits of 01, said once: the head has them as its own.
impl Numbers {
    pub const MAX_HEIGHT: u32 = 65535;

    pub const MAX_WIDTH: u32 = 65535;

    pub const MAX_SLOTS: u32 = 65535;
}

// Height, width and tail.
#[derive(Clone, Copy, PartialEq, Eq)]
pub struct Size {
    pub h: u32,
    pub w: u32,
    pub n: u32,
}
