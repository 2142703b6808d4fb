// Why a call is refused.
ghost use Rattle.std.specs.Prelude.{◌≡◌};
ghost use Rattle.store_head.specs.Refused.{number_of};

// 01, "Numbered refusals", under their numbers.
#[derive(Clone, Copy, PartialEq, Eq)]
pub enum Refusal {
    Damaged = 1,
    Size = 2,
    Buffers = 3,
    Row = 4,
    Column = 5,
    Side = 6,
    Same = 7,
    Shrink = 8,
    Phase = 9,
    Single = 10,
    Spent = 11,
    Slots = 12,
    Words = 13,
    Entries = 14,
    Answer = 15,
    Record = 16,
    Cut = 17,
}

impl Refusal {
    // The number that 01 gives it, for hosts and for lines.
    pub fn number(self) -> u32
        ensures { result ≡ number_of self }
    {
        self as u32
    }
}
