// A trial's line: its label, and numbers.

// A space and the number.
pub fn number(x: u64) {
    io::write_all(1, b" ");
    io::print_decimal(1, x);
}

// The end of the line.
pub fn end() {
    io::write_all(1, b"\n");
}

// A line with a bit.
pub fn bit(label: &[u8], v: bool) {
    io::write_all(1, label);
    number(u64::from(v));
    end();
}

// A line with the words.
pub fn words(label: &[u8], ws: &[u64]) {
    io::write_all(1, label);
    for w in ws {
        number(*w);
    }
    end();
}

// A line with the first n of the answers.
pub fn answers(label: &[u8], answers: &[u32], n: usize) {
    io::write_all(1, label);
    for a in answers.iter().take(n) {
        number(u64::from(*a));
    }
    end();
}
