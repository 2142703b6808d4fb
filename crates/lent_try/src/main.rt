#![tactic(auto)]
// Tries `lent` at its edges and prints a line for each trial: the four numbers that a clear, a move or an exchange leaves, or 1 for yes and 0 for no.
use lent::Number;

// Four numbers in a line.
fn show<T: Number + Into<u64>>(s: &[T; 4]) {
    for (i, x) in s.iter().enumerate() {
        if i > 0 {
            io::write_all(1, b" ");
        }
        io::print_decimal(1, (*x).into());
    }
    io::write_all(1, b"\n");
}

// 1 for yes, 0 for no.
fn tell(yes: bool) {
    io::write_all(1, if yes { b"1\n" } else { b"0\n" });
}

// Four numbers, with a stretch of them cleared.
fn clear<T: Number + Into<u64>>(mut s: [T; 4], from: usize, to: usize) {
    if from <= to && to <= 4 {
        lent::clear(&mut s, from, to);
    }
    show(&s);
}

// Whether those of four numbers from `from` on are zero.
fn rest<T: Number>(s: [T; 4], from: usize) {
    tell(lent::rest_zero(&s, from));
}

// Four numbers, with n of them put elsewhere.
fn moved<T: Number + Into<u64>>(mut s: [T; 4], from: usize, to: usize, n: usize) {
    if n <= 4 && from <= 4 - n && to <= 4 - n {
        lent::move_stretch(&mut s, from, to, n);
    }
    show(&s);
}

// Four numbers, two stretches of which change places.
fn exchanged<T: Number + Into<u64>>(mut s: [T; 4], a: usize, b: usize, n: usize) {
    if n <= 4 && a <= 4 - n && b <= 4 - n && (a + n <= b || b + n <= a) {
        lent::exchange(&mut s, a, b, n);
    }
    show(&s);
}

// The same in steps, over 600 numbers of which one is not zero.
fn steps(one: usize, from: usize) {
    let mut s = [0u16; 600];
    if one < 600 {
        s[one] = 1;
    }
    tell(lent::rest_zero_in_steps(&s, from));
}

// A slice with no place.
fn empty() {
    let mut s = [1u8, 2, 3, 4];
    lent::clear(&mut s[..0], 0, 0);
    tell(lent::rest_zero(&s[..0], 0));
    tell(lent::rest_zero(&s[..0], 1));
    show(&s);
}

fn main() {
    empty();
    let bytes = [255u8, 254, 253, 252];
    clear(bytes, 0, 0);
    clear(bytes, 4, 4);
    clear(bytes, 0, 4);
    clear(bytes, 0, 1);
    clear(bytes, 3, 4);
    clear([65535u16, 65534, 65533, 65532], 1, 3);
    clear([4294967295u32, 4294967294, 4294967293, 4294967292], 1, 4);
    clear([u64::MAX, u64::MAX - 1, u64::MAX - 2, u64::MAX - 3], 0, 3);
    rest([0u8, 0, 0, 0], 0);
    rest([1u8, 0, 0, 0], 0);
    rest([1u8, 0, 0, 0], 1);
    rest([0u8, 0, 0, 1], 3);
    rest([0u8, 0, 0, 1], 4);
    rest([0u8, 0, 0, 1], 5);
    rest([0u8, 0, 0, 1], usize::MAX);
    rest([9u16, 0, 256, 0], 1);
    rest([9u16, 0, 256, 0], 3);
    rest([0u32, 0, 0, 65536], 0);
    rest([0u32, 0, 0, 65536], 4);
    rest([0u64, 0, 4294967296, 0], 2);
    rest([0u64, 0, 4294967296, 0], 3);
    moved(bytes, 0, 2, 0);
    moved(bytes, 4, 4, 0);
    moved(bytes, 0, 0, 4);
    moved(bytes, 0, 1, 3);
    moved([65535u16, 65534, 65533, 65532], 1, 0, 3);
    moved([4294967295u32, 4294967294, 4294967293, 4294967292], 3, 0, 1);
    moved(
        [u64::MAX, u64::MAX - 1, u64::MAX - 2, u64::MAX - 3],
        0,
        2,
        2,
    );
    exchanged(bytes, 0, 4, 0);
    exchanged(bytes, 0, 3, 1);
    exchanged([65535u16, 65534, 65533, 65532], 2, 0, 2);
    exchanged([4294967295u32, 4294967294, 4294967293, 4294967292], 1, 2, 1);
    exchanged(
        [u64::MAX, u64::MAX - 1, u64::MAX - 2, u64::MAX - 3],
        0,
        2,
        2,
    );
    steps(600, 0);
    steps(0, 0);
    steps(0, 1);
    steps(255, 0);
    steps(256, 0);
    steps(256, 256);
    steps(256, 257);
    steps(599, 0);
    steps(599, 599);
    steps(599, 600);
    steps(599, usize::MAX);
}
