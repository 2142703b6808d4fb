#![tactic(auto)]
// Reads scripts at their edges. For each script its name and a line for each record: its script position, its kind with its places, and the position after
// it; or `wrong` with that position, or `cut`.
ghost use Rattle.std.specs.Prelude.{◌≤◌, ◌<◌, length};

mod scripts;
mod show;

use records::Read;

// Shows what stands at `at`, and answers where reading goes on: the end, after a record cut short.
fn step(s: &[u8], at: usize) -> usize
    requires { at < length s.now }
    ensures { (at < result) × (result ≤ length s.now) }
{
    let x = records::read_at(s, at);
    show::reading(x);
    match x {
        Read::Whole(_, next) => next,
        Read::Wrong(next) => next,
        Read::Cut => s.len(),
        Read::End => s.len(),
    }
}

// Shows every record of a script.
pub fn script(s: &[u8]) {
    let mut at = 0;
    while at < s.len() {
        at = step(s, at);
    }
}

// Positions at and past the end of a script.
fn past_the_end() {
    let s = [6u8, 0, 0];
    io::write_all(1, b"past the end:\n");
    show::reading(records::read_at(&s, 3));
    show::reading(records::read_at(&s, 4));
    show::reading(records::read_at(&s, 18446744073709551615));
}

fn main() {
    scripts::short();
    scripts::unknown();
    scripts::wrong_length();
    scripts::cut_short();
    scripts::changes();
    scripts::phases();
    scripts::questions();
    past_the_end();
}
