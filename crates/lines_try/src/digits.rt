// The lines with no number, one or three, and digits alone.
use crate::show;
use lines::Lines;

// The line `ok`.
pub fn ok() {
    let mut out = [46u8; 96];
    let mut to = Lines {
        bytes: &mut out,
        used: 3,
    };
    to.put_ok();
    let end = to.used;
    show(&out, 3, end);
}

// The line `no k`.
pub fn no(k: u32) {
    let mut out = [46u8; 96];
    let long = 4 + lines::dec_length(k as u64);
    let mut to = Lines {
        bytes: &mut out,
        used: 3,
    };
    to.put_no(k);
    let end = to.used;
    show(&out, long, end);
}

// The line `ok x`.
pub fn number(x: u32) {
    let mut out = [46u8; 96];
    let long = 4 + lines::dec_length(x as u64);
    let mut to = Lines {
        bytes: &mut out,
        used: 3,
    };
    to.put_number(x);
    let end = to.used;
    show(&out, long, end);
}

// The line `ok a b c`.
pub fn three(a: u32, b: u32, c: u32) {
    let mut out = [46u8; 96];
    let long = 6
        + lines::dec_length(a as u64)
        + lines::dec_length(b as u64)
        + lines::dec_length(c as u64);
    let mut to = Lines {
        bytes: &mut out,
        used: 3,
    };
    to.put_three(a, b, c);
    let end = to.used;
    show(&out, long, end);
}

// The digits of n.
pub fn digits(n: u64) {
    let mut out = [46u8; 96];
    let long = lines::dec_length(n);
    let mut to = Lines {
        bytes: &mut out,
        used: 3,
    };
    to.put_dec(n);
    let end = to.used;
    show(&out, long, end);
}
