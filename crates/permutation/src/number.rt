// The numbers of which maps are made.
ghost use Rattle.std.specs.Prelude.{◌≡◌, ◌≤◌, ℕ};

use lent::Number;

// A number of a map: u32 for rows, u16 for columns.
pub trait MapNumber: Number {
    // the largest one
    ghost top: { ℕ };

    // The number as a place in the other map.
    fn place(self) -> usize
        ensures { result ≡ Self.num self };

    // The number of a place.
    fn of_place(at: usize) -> Self
        requires { at ≤ top }
        ensures { Self.num result ≡ at };
}

impl MapNumber for u32 {
    ghost top = { 4294967295 };

    fn place(self) -> usize {
        self as usize
    }

    fn of_place(at: usize) -> u32 {
        at as u32
    }
}

impl MapNumber for u16 {
    ghost top = { 65535 };

    fn place(self) -> usize {
        usize::from(self)
    }

    fn of_place(at: usize) -> u16 {
        at as u16
    }
}
