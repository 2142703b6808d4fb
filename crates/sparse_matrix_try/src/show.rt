// A trial's line as the script program writes it: `ok` with numbers, or `no` and the number of a refusal.
use sparse_matrix::{Refusal, Store};

// A space and the number, for each number of the list.
fn numbers<T: Copy + Into<u64>>(list: &[T]) {
    for x in list {
        io::write_all(1, b" ");
        io::print_decimal(1, (*x).into());
    }
}

// A line of its name and the numbers of the list.
pub fn line<T: Copy + Into<u64>>(name: &[u8], list: &[T]) {
    io::write_all(1, name);
    numbers(list);
    io::write_all(1, b"\n");
}

// What a call told: its numbers, or why it is refused.
pub fn told<T: Copy + Into<u64>, const N: usize>(told: Result<[T; N], Refusal>) {
    match told {
        Ok(list) => line(b"ok", &list),
        Err(refusal) => line(b"no", &[refusal.number()]),
    }
}

// What a call told that lists: the first answers, as many as it says, or why it is refused.
pub fn listed(told: Result<u32, Refusal>, answers: &[u32]) {
    match told {
        Ok(n) => {
            let n = answers.len().min(n as usize);
            line(b"ok", &answers[..n])
        }
        Err(refusal) => line(b"no", &[refusal.number()]),
    }
}

// Every number of the store: the four maps; the rows' slots and counts, and the tail's words; the index.
pub fn store(store: &Store) {
    io::write_all(1, b"maps");
    numbers(store.row_homes);
    numbers(store.row_logicals);
    numbers(store.column_homes);
    numbers(store.column_logicals);
    io::write_all(1, b"\nrows");
    numbers(store.slots);
    numbers(store.counts);
    numbers(store.words);
    io::write_all(1, b"\nindex");
    numbers(store.marks);
    numbers(store.starts);
    numbers(store.entries);
    io::write_all(1, b"\n");
}
