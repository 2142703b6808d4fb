#![tactic(auto)]
// Tries the index at its edges. One line for each trial: its name, and the numbers that were answered.
mod builds;
mod checks;
mod print;
mod shows;

fn main() {
    builds::edges();
    builds::rebuilt();
    shows::lists();
    shows::short_list();
    shows::long_list();
    checks::right();
    checks::starts_damaged();
    checks::entries_damaged();
    checks::marks_damaged();
    checks::exact_and_spent();
}
