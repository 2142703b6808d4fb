// A line as the script program writes it: `ok` with numbers, or `no` and the number of a refusal.
use operations::Told;
use sparse_matrix::Refusal;

// A line of its name and the numbers of the list. sparse_matrix_try has the same: a crate that two programs share for it would be longer.
fn line<T: Copy + Into<u64>>(name: &[u8], list: &[T]) {
    io::write_all(1, name);
    for x in list {
        io::write_all(1, b" ");
        io::print_decimal(1, (*x).into());
    }
    io::write_all(1, b"\n");
}

// Why a record or a call is refused.
pub fn refused(refusal: Refusal) {
    line(b"no", &[refusal.number()]);
}

// The words of a row's tail.
pub fn words(ws: &[u64]) {
    line(b"ok", ws);
}

// What is told, but for the words.
pub fn told(told: Told, answers: &[u32]) {
    match told {
        Told::Done => {
            io::write_all(1, b"ok\n");
        }
        Told::Number(x) => line(b"ok", &[x]),
        Told::Sizes(p) => line(b"ok", &[p.h, p.w, p.n]),
        Told::List(n) => {
            let n = answers.len().min(n as usize);
            line(b"ok", &answers[..n])
        }
        Told::Words(_) => {}
    }
}
