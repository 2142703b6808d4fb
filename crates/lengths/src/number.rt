// One number of a line, with the space before it.
ghost use Rattle.std.specs.Prelude.{[], ◌∷◌};
ghost use Rattle.lengths.specs.Length.{within, Takes};

// How many bytes n takes.
pub fn number_length(n: u64) -> usize
    ensures { Takes (n ∷ []) result }
{
    1 + lines::dec_length(n)
}

// How many bytes n takes in a line of the numbers from a to b-1 only.
pub fn length_within(a: u32, b: u32, n: u32) -> usize
    ensures { Takes (within a b n) result }
{
    if n < a {
        return 0;
    }
    if b <= n {
        return 0;
    }
    number_length(n as u64)
}
