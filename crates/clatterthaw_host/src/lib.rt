#![tactic(auto)]
// The store for hosts in C and Rust: every call as numbers, plain structs and slices. Each function is total and demands nothing of its caller.
mod alter;
mod ask;
mod cross;
mod run;

// A head, as a host keeps it between calls. `on` is 0 or 1; with any other number the store is damaged.
#[repr(C)]
#[derive(Clone, Copy)]
pub struct PlainHead {
    pub h: u32,
    pub w: u32,
    pub n: u32,
    pub slots: u32,
    pub made: u32,
    pub on: u32,
}

// What a change leaves: the new head and 0, or the head as it was and the number of the refusal.
#[repr(C)]
#[derive(Clone, Copy)]
pub struct PlainChanged {
    pub head: PlainHead,
    pub no: u32,
}

// A number and 0, or the number of the refusal: GET, COUNT.
#[repr(C)]
#[derive(Clone, Copy)]
pub struct PlainNumber {
    pub no: u32,
    pub value: u32,
}

// Height, width, tail and 0, or the number of the refusal: SIZE.
#[repr(C)]
#[derive(Clone, Copy)]
pub struct PlainSize {
    pub no: u32,
    pub h: u32,
    pub w: u32,
    pub n: u32,
}

// How many of the first answer places hold the list, and 0, or the number of the refusal: ITER, TAILONES, COLONES.
#[repr(C)]
#[derive(Clone, Copy)]
pub struct PlainList {
    pub no: u32,
    pub count: u32,
}

// The row's part of the lent words, from `start` on, and 0, or the number of the refusal: WORDS.
#[repr(C)]
#[derive(Clone, Copy)]
pub struct PlainWords {
    pub no: u32,
    pub count: u32,
    pub start: usize,
}

// What a run leaves: the head, the record bytes done, the line bytes written and 0, or the head as it was and the number of the refusal.
#[repr(C)]
#[derive(Clone, Copy)]
pub struct PlainRan {
    pub head: PlainHead,
    pub no: u32,
    pub done: usize,
    pub written: usize,
}
