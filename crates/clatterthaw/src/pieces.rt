// Standard input in pieces: a record may straddle two reads.
ghost use Rattle.std.specs.Prelude.{◌≤◌, length};

use std::io::Read;

// Reads once after the `have` bytes that are there, and answers how many there are then: no more at the end, or where the read fails.
pub fn more(rt: &HostRuntime, buf: &mut [u8], have: usize) -> usize
    requires { have ≤ length buf.old }
    ensures { (have ≤ result) × (result ≤ length buf.new) }
{
    let part = &mut buf[have..];
    match rt.stdin().read(part) {
        Ok(got) => have + got,
        Err(_) => have,
    }
}

// How many bytes of s are whole records, by their lengths alone.
fn whole(s: &[u8]) -> usize
    ensures { result ≤ length s.now }
{
    let mut at = 0;
    while 3 <= s.len() - at {
        let long = records::length_at(s, at);
        if s.len() - at - 3 < long {
            break;
        }
        at += 3 + long;
    }
    at
}

// How many of the first `have` bytes are to be run now: those of whole records, and all of them where no more are to come.
pub fn ready(buf: &[u8], have: usize, more: bool) -> usize
    requires { have ≤ length buf.now }
    ensures { result ≤ have }
{
    if more { whole(&buf[..have]) } else { have }
}

// Moves the bytes from w to before `have` to the front, and answers how many they are.
pub fn shift(buf: &mut [u8], w: usize, have: usize) -> usize
    requires { (w ≤ have) × (have ≤ length buf.old) }
    ensures { result ≤ length buf.new }
{
    buf.copy_within(w..have, 0);
    have - w
}
