// The tests of the index that need no row, each leaning on those before it. A start may hold any number, so it is compared before it is an index.
ghost use Rattle.std.specs.Prelude.{◌≡◌, ◌≤◌, ◌<◌, length};
ghost use Rattle.laws.specs.Tests.{all_below};
ghost use Rattle.arraymap.specs.Check.{up_at, mark_at, ok_from, list_ok};
ghost use Rattle.arraymap.specs.Steps.{shape_test, CanShape, Span};

// The part of the test that needs no row: no start is past the next, the lists lie in the entries, the marks are 0 or 1, and what is not used is 0.
pub fn shape_ok(m: usize, starts: &[u64], entries: &[u32], marks: &[u8]) -> bool
    requires { CanShape m starts.now marks.now }
    ensures { result ≡ shape_test m starts.now entries.now marks.now }
{
    let end = starts[m] as usize;
    starts[0] == 0
        && starts[..m + 1].is_sorted()
        && end <= entries.len()
        && lent::rest_zero_in_steps(starts, m + 1)
        && lent::rest_zero_in_steps(entries, end)
        && lent::rest_zero_in_steps(marks, m)
        && marks[..m].iter().all(|mark| *mark <= 1)
}

// Whether the list rises strictly and has rows below h only.
fn list_ok(list: &[u32], h: usize) -> bool
    ensures { result ≡ ok_from 0 h list.now }
{
    let mut lo = 0;
    for y in list {
        let y = *y as usize;
        if y < lo || h <= y {
            return false;
        }
        lo = y + 1;
    }
    true
}

// Whether every list rises strictly and has rows below h only.
pub fn lists_ok(h: usize, m: usize, starts: &[u64], entries: &[u32]) -> bool
    requires { Span starts.now entries.now m }
    ensures { result ≡ all_below m (list_ok starts.now entries.now h) }
{
    for z in 0..m {
        if !list_ok(crate::get(starts, entries, z), h) {
            return false;
        }
    }
    true
}
