// How the answers are written.

// A line: its name, and 1 or 0 for each answer.
pub fn line(name: &[u8], answers: &[bool]) {
    io::write_all(1, name);
    for yes in answers {
        io::write_all(1, if *yes { b" 1" } else { b" 0" });
    }
    io::write_all(1, b"\n");
}
