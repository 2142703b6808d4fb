#![tactic(auto)]
// Tries the store check on a small store, right and damaged at one place after the other. A line for each buffer: 1 for well-formed, 0 for not.
mod damage;
mod head;
mod print;
mod store;

fn main() {
    head::right();
    head::limits();
    head::sizes();
    head::short();
    damage::maps();
    damage::rows();
    damage::tail();
    damage::index_off();
    damage::index_on();
    damage::unused();
}
