// Numbers on standard output.

// A blank and n.
pub fn number(n: u64) {
    io::write_all(1, b" ");
    io::print_decimal(1, n);
}

// Each number of the list.
pub fn numbers<T: Copy + Into<u64>>(list: &[T]) {
    for n in list {
        number((*n).into());
    }
}
