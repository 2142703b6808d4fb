#![tactic(auto)]
// Tries `permutation` at its edges and prints a line for each trial: a number, both maps of four places, or 1 for yes and 0 for no.
ghost use Rattle.std.specs.Prelude.{◌≡◌, true, ◌≤◌};
ghost use Rattle.permutation.specs.Maps.{CanSwap};

use permutation::{HomeColumn, HomeRow, LogicalColumn, LogicalRow, MapNumber};

// The numbers of a map, and what stands after them.
fn show<T: MapNumber + Into<u64>>(m: &[T], after: &[u8]) {
    for (i, x) in m.iter().enumerate() {
        if i > 0 {
            io::write_all(1, b" ");
        }
        io::print_decimal(1, (*x).into());
    }
    io::write_all(1, after);
}

// 1 for yes, 0 for no.
fn tell(yes: bool) {
    io::write_all(1, if yes { b"1\n" } else { b"0\n" });
}

// Row 0 has home 1, row 1 home 2 and row 2 home 0: three rows in four places, asked for row `n`'s home, and for the row at home `n`.
fn look_rows(n: u32) {
    if n < 4 {
        let y = permutation::home_row(&[1, 2, 0, 0], LogicalRow(n));
        let r = permutation::logical_row(&[2, 0, 1, 0], HomeRow(n));
        show(&[y.0, r.0], b"\n");
    }
}

fn look_columns(n: u16) {
    if n < 4 {
        let z = permutation::home_column(&[1, 2, 0, 0], LogicalColumn(n));
        let c = permutation::logical_column(&[2, 0, 1, 0], HomeColumn(n));
        show(&[z.0, c.0], b"\n");
    }
}

// Whether `i` and `j`, and what stands there, lie in the maps.
fn can_swap<T: MapNumber>(f: &[T], g: &[T], i: T, j: T) -> bool
    ensures { result ≡ true → CanSwap (T.nums f.now) (T.nums g.now) (T.num i) (T.num j) }
{
    let (p, q) = (i.place(), j.place());
    p < f.len() && q < f.len() && f[p].place() < g.len() && f[q].place() < g.len()
}

// Both maps after rows `i` and `j` changed their homes, where that is allowed.
fn swap_rows(i: u32, j: u32) {
    let mut homes = [1, 2, 0, 0];
    let mut logical = [2, 0, 1, 0];
    if can_swap(&homes, &logical, i, j) {
        permutation::swap_rows(&mut homes, &mut logical, LogicalRow(i), LogicalRow(j));
    }
    show(&homes, b" | ");
    show(&logical, b"\n");
}

// Both maps after home rows `y` and `z` changed what they keep.
fn swap_home_rows(y: u32, z: u32) {
    let mut homes = [1, 2, 0, 0];
    let mut logical = [2, 0, 1, 0];
    if can_swap(&logical, &homes, y, z) {
        permutation::swap_home_rows(&mut homes, &mut logical, HomeRow(y), HomeRow(z));
    }
    show(&homes, b" | ");
    show(&logical, b"\n");
}

fn swap_columns(i: u16, j: u16) {
    let mut homes = [1, 2, 0, 0];
    let mut logical = [2, 0, 1, 0];
    if can_swap(&homes, &logical, i, j) {
        permutation::swap_columns(&mut homes, &mut logical, LogicalColumn(i), LogicalColumn(j));
    }
    show(&homes, b" | ");
    show(&logical, b"\n");
}

// A map of four nines, made the identity of `k` numbers.
fn identity<T: MapNumber + Into<u64>>(mut nines: [T; 4], k: usize)
    requires { 4 ≤ T.top }
{
    if k <= 4 {
        permutation::make_identity(&mut nines, k);
    }
    show(&nines, b"\n");
}

// Whether two maps of four places are inverse over 0..k.
fn inverse<T: MapNumber>(homes: [T; 4], logical: [T; 4], k: usize) {
    tell(permutation::are_inverse(&homes, &logical, k));
}

// Maps with no place, with one, and of two lengths.
fn short() {
    let f = [0u32, 1];
    let g = [0u32, 1];
    tell(permutation::are_inverse(&f[..0], &g[..0], 0));
    tell(permutation::are_inverse(&f[..0], &g[..0], 1));
    tell(permutation::are_inverse(&f[..1], &g[..1], 1));
    tell(permutation::are_inverse(&f[..1], &g, 2));
    tell(permutation::are_inverse(&f, &g[..1], 2));
}

fn looks() {
    look_rows(0);
    look_rows(2);
    look_columns(0);
    look_columns(2);
}

fn swaps() {
    swap_rows(0, 2);
    swap_rows(2, 0);
    swap_rows(1, 1);
    swap_rows(0, 3);
    swap_home_rows(0, 2);
    swap_home_rows(1, 1);
    swap_columns(0, 2);
    swap_columns(1, 1);
}

fn identities() {
    identity([9u32; 4], 0);
    identity([9u32; 4], 1);
    identity([9u32; 4], 3);
    identity([9u32; 4], 4);
    identity([9u16; 4], 0);
    identity([9u16; 4], 3);
    identity([9u16; 4], 4);
}

// Row maps that are inverse or not: a number of the wrong row in one map and in the other, a number that is k, and a number past both maps.
fn row_tests() {
    inverse([1u32, 2, 0, 0], [2, 0, 1, 0], 3);
    inverse([1u32, 2, 0, 0], [2, 0, 1, 0], 0);
    inverse([1u32, 2, 0, 0], [2, 0, 1, 0], 4);
    inverse([1u32, 2, 0, 3], [2, 0, 1, 3], 4);
    inverse([1u32, 2, 0, 3], [2, 0, 1, 3], 5);
    inverse([1u32, 2, 1, 0], [2, 0, 1, 0], 3);
    inverse([1u32, 2, 0, 0], [2, 0, 0, 0], 3);
    inverse([1u32, 3, 0, 1], [2, 0, 1, 1], 3);
    inverse([1u32, 4294967295, 0, 0], [2, 0, 1, 0], 3);
    inverse([1u32, 2, 0, 0], [2, 0, 4294967295, 0], 3);
}

fn column_tests() {
    inverse([1u16, 2, 0, 0], [2, 0, 1, 0], 3);
    inverse([1u16, 2, 0, 0], [2, 0, 1, 0], 4);
    inverse([1u16, 2, 1, 0], [2, 0, 1, 0], 3);
    inverse([1u16, 2, 0, 0], [2, 0, 0, 0], 3);
    inverse([1u16, 65535, 0, 0], [2, 0, 1, 0], 3);
    inverse([1u16, 2, 0, 0], [2, 0, 65535, 0], 3);
}

fn main() {
    looks();
    swaps();
    identities();
    short();
    row_tests();
    column_tests();
}
