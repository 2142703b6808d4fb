#![tactic(auto)]
// Writes lines at their edges, each from place 3 on over 96 dots. For each trial how long the line is, the position after it, and the bytes up to two places
// past it: three dots, the line and two dots.
ghost use Rattle.std.specs.Prelude.{◌≤◌, length};

mod digits;

use lines::{Decimal, Lines};

// Shows a trial: the bytes before `end`, and the two after it.
pub fn show(out: &[u8], long: usize, end: usize) {
    io::write_all(1, b"long ");
    io::print_decimal(1, long as u64);
    io::write_all(1, b", next ");
    io::print_decimal(1, end as u64);
    io::write_all(1, b"\n");
    if out.len() < 2 {
        return;
    }
    if end <= out.len() - 2 {
        let past = end + 2;
        io::write_all(1, &out[0..past]);
    }
    io::write_all(1, b"\n");
}

// The line of the numbers, of 32 bits or 64, where it has room.
fn list<T: Decimal>(nums: &[T])
    requires { length nums.now ≤ 65536 }
{
    let mut out = [46u8; 96];
    let long = lines::list_length(nums);
    if long <= 93 {
        let mut to = Lines {
            bytes: &mut out,
            used: 3,
        };
        to.put_list(nums);
        let end = to.used;
        show(&out, long, end);
    }
}

fn main() {
    digits::ok();
    digits::no(1);
    digits::no(17);
    digits::number(0);
    digits::number(9);
    digits::number(10);
    digits::number(65535);
    digits::number(4294967295);
    digits::three(0, 0, 0);
    digits::three(65535, 4294967295, 10);
    digits::digits(0);
    digits::digits(18446744073709551615);
    let none = [0u32; 0];
    let one = [100u32];
    let five = [0u32, 9, 10, 65535, 4294967295];
    list(&none);
    list(&one);
    list(&five);
    let no_words = [0u64; 0];
    let three = [0u64, 18446744073709551615, 9223372036854775808];
    list(&no_words);
    list(&three);
}
