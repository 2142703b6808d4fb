// The unsigned numbers of which the store lends slices.
ghost use Rattle.std.specs.Prelude.{◌≡◌, List, ℕ, map, eqb, refl};
ghost use Rattle.std.proofs.Common.{rules};
ghost use Rattle.lent.specs.Numbers.{map_same};

// An unsigned number of some width. Contracts speak of a slice of them as of a list of plain numbers.
pub trait Number: Copy + Default + PartialEq {
    // the plain number that a value is
    ghost num: { Self → ℕ };

    // the list of plain numbers that a slice is
    ghost nums: { List Self → List ℕ };

    ghost nums_law: { (s : List Self) → nums s ≡ map num s };

    // a clone is the value itself, and there always is one
    ghost clone_law: { (x y : Self) → Self.is_clone x y → y ≡ x };

    ghost infallible_law: { (x : Self) → Self.is_infallible x };

    ghost zero_law: { (x : Self) → Self.is_default x → num x ≡ 0 };

    ghost eq_law: { (x y : Self) → Self.eq x y ≡ eqb (num x) (num y) };
}

// An impl for each width, though all say the same: a macro that would write them may write no ghost member.
impl Number for u8 {
    ghost num = { λ x. x };

    ghost nums = { λ s. s };

    ghost nums_law = { map_same };

    ghost clone_law = { Prim.search rules };

    ghost infallible_law = { Prim.search rules };

    ghost zero_law = { λ x z. z };

    ghost eq_law = { λ x y. refl };
}

impl Number for u16 {
    ghost num = { λ x. x };

    ghost nums = { λ s. s };

    ghost nums_law = { map_same };

    ghost clone_law = { Prim.search rules };

    ghost infallible_law = { Prim.search rules };

    ghost zero_law = { λ x z. z };

    ghost eq_law = { λ x y. refl };
}

impl Number for u32 {
    ghost num = { λ x. x };

    ghost nums = { λ s. s };

    ghost nums_law = { map_same };

    ghost clone_law = { Prim.search rules };

    ghost infallible_law = { Prim.search rules };

    ghost zero_law = { λ x z. z };

    ghost eq_law = { λ x y. refl };
}

impl Number for u64 {
    ghost num = { λ x. x };

    ghost nums = { λ s. s };

    ghost nums_law = { map_same };

    ghost clone_law = { Prim.search rules };

    ghost infallible_law = { Prim.search rules };

    ghost zero_law = { λ x z. z };

    ghost eq_law = { λ x y. refl };
}
