// A reading as a line.
use records::{Read, Record};
use table::Op;

// A space and the number.
fn number(x: u64) {
    io::write_all(1, b" ");
    io::print_decimal(1, x);
}

// A kind's name and its places, a space before each.
fn named(name: &[u8], places: &[u32]) {
    io::write_all(1, b" ");
    io::write_all(1, name);
    for p in places {
        number(u64::from(*p));
    }
}

// The operation's kind, as 01 names it, and its places.
fn kind(op: Op) {
    match op {
        Op::Make(p) => named(b"MAKE", &[p.h, p.w, p.n, p.slots]),
        Op::Set(p) => named(b"SET", &[p.r, p.c, u32::from(p.v)]),
        Op::SwapR(p) => named(b"SWAPR", &[p.i, p.j]),
        Op::SwapC(p) => named(b"SWAPC", &[p.i, p.j]),
        Op::Add(p) => named(b"ADD", &[p.d, p.s, p.start]),
        Op::On => named(b"ON", &[]),
        Op::Off => named(b"OFF", &[]),
        Op::Freeze(p) => named(b"FREEZE", &[p.c]),
        Op::Resize(p) => named(b"RESIZE", &[p.h, p.w]),
        Op::Get(p) => named(b"GET", &[p.r, p.c]),
        Op::Count(p) => named(b"COUNT", &[p.r, p.a, p.b]),
        Op::Words(p) => named(b"WORDS", &[p.r, p.a]),
        Op::TailOnes(p) => named(b"TAILONES", &[p.r, p.a]),
        Op::Iter(p) => named(b"ITER", &[p.r, p.a, p.b]),
        Op::ColOnes(p) => named(b"COLONES", &[p.c, p.a, p.b]),
        Op::Size => named(b"SIZE", &[]),
    }
}

// A whole record: its script position and its operation.
fn whole(x: Record) {
    let op = x.op;
    io::write_all(1, b"at");
    number(x.at as u64);
    kind(op);
}

// What a position leads to.
pub fn reading(x: Read) {
    match x {
        Read::Whole(r, next) => {
            whole(r);
            io::write_all(1, b", next");
            number(next as u64);
        }
        Read::Wrong(next) => {
            io::write_all(1, b"wrong, next");
            number(next as u64);
        }
        Read::Cut => {
            io::write_all(1, b"cut");
        }
        Read::End => {
            io::write_all(1, b"end");
        }
    }
    io::write_all(1, b"\n");
}
