// Records run, and their lines written to standard output.
use sparse_matrix::StoreMut;

// Runs the records, and writes a line for each; then whether all of them ran and standard output took the lines.
pub fn pump(store: &mut StoreMut, answers: &mut [u32], records: &[u8], lines: &mut [u8]) -> bool {
    let mut at = 0;
    while at < records.len() {
        // The store is well-formed from the start and stays so; if it were not, nothing would be done.
        let Ok(stand) = script::run(store, answers, &records[at..], lines) else {
            return false;
        };
        if !io::write_all(1, &lines[..stand.written]) || stand.done == 0 {
            return false;
        }
        at += stand.done;
    }
    true
}
