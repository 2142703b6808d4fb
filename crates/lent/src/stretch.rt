// Stretches of a lent slice.
ghost use Rattle.std.specs.Prelude.{◌≡◌, ◌+◌, ◌-◌, ◌≤◌, length};
ghost use Rattle.laws.specs.Parts.{part, put_at, zeros};
ghost use Rattle.laws.specs.Tests.{all_below, zero_at, zero_from};
ghost use Rattle.lent.specs.Stretch.{Stretch, CanMove, Apart};

use crate::Number;

// The places of `s` from `from` to before `to` become zero.
pub fn clear<T: Number>(s: &mut [T], from: usize, to: usize)
    requires { Stretch (T.nums s.old) from to }
    ensures { T.nums s.new ≡ put_at (T.nums s.old) from (zeros (to - from)) }
{
    s[from..to].fill(T::default());
}

// Whether the places of `s` from `from` to before `to` are zero.
// The loop has one way out, so that LLVM compares many numbers at once: one that is not zero does not end it early.
fn stretch_zero<T: Number>(s: &[T], from: usize, to: usize) -> bool
    requires { Stretch (T.nums s.now) from to }
    ensures { result ≡ all_below to (zero_at (T.nums s.now) from) }
{
    let mut zero = true;
    for i in from..to {
        zero &= s[i] == T::default();
    }
    zero
}

// Whether every place of `s` from `from` on is zero. It is, where `from` is past the end.
pub fn rest_zero<T: Number>(s: &[T], from: usize) -> bool
    ensures { result ≡ zero_from (T.nums s.now) from }
{
    if s.len() <= from {
        return true;
    }
    stretch_zero(s, from, s.len())
}

// The same in steps: a number that is not zero ends it with its step of 256, however much is lent after it.
pub fn rest_zero_in_steps<T: Number>(s: &[T], from: usize) -> bool
    ensures { result ≡ zero_from (T.nums s.now) from }
{
    let mut at = from;
    // no `for`: the last step is shorter
    while at < s.len() {
        let end = at + (s.len() - at).min(256);
        if !stretch_zero(s, at, end) {
            return false;
        }
        at = end;
    }
    true
}

// The n numbers from `from` on, put from `to` on as they were, where the two stretches overlap too.
pub fn move_stretch<T: Number>(s: &mut [T], from: usize, to: usize, n: usize)
    requires { CanMove (T.nums s.old) from to n }
    ensures { T.nums s.new ≡ put_at (T.nums s.old) to (part (T.nums s.old) from n) }
{
    s.copy_within(from..from + n, to);
}

// Two stretches of n numbers, from `a` and from `b` on, which lie apart, change places.
pub fn exchange<T: Number>(s: &mut [T], a: usize, b: usize, n: usize)
    requires { Apart (T.nums s.old) a b n }
    ensures { T.nums s.new ≡ put_at (put_at (T.nums s.old) a (part (T.nums s.old) b n)) b (part (T.nums s.old) a n) }
{
    let (low, high) = if a < b { (a, b) } else { (b, a) };
    let (front, back) = s.split_at_mut(high);
    front[low..low + n].swap_with_slice(&mut back[..n]);
}
