// The maps, of rows and of columns alike.
ghost use Rattle.std.specs.Prelude.{◌≡◌, length};
ghost use Rattle.permutation.specs.Asked.{CanNumber, CanLook};
ghost use Rattle.permutation.specs.Maps.{CanSwap, swapped, turned, identity, back_at, half_test, inverse_test};

use crate::MapNumber;

// What map `f` has at `i` and `j` is exchanged, and `g`, its inverse, is turned with it.
pub(crate) fn swap<T: MapNumber>(f: &mut [T], g: &mut [T], i: T, j: T)
    requires { CanSwap (T.nums f.old) (T.nums g.old) (T.num i) (T.num j) }
    ensures { (T.nums f.new ≡ swapped (T.nums f.old) (T.num i) (T.num j)) × (T.nums g.new ≡ turned (T.nums f.old) (T.nums g.old) (T.num i) (T.num j)) }
{
    let x = f[i.place()];
    let y = f[j.place()];
    f.swap(i.place(), j.place());
    g[x.place()] = j;
    g[y.place()] = i;
}

// Each of `k` gets its own number (01: "At making both are equal"), and the map is zero from there to its end.
pub fn make_identity<T: MapNumber>(map: &mut [T], k: usize)
    requires { CanNumber (T.nums map.old) k T.top }
    ensures { T.nums map.new ≡ identity (length (T.nums map.old)) k }
{
    for (i, x) in map.iter_mut().enumerate() {
        *x = if i < k { T::of_place(i) } else { T::default() };
    }
}

// Whether what `f` has at `i` is below `k`, and `g` leads back from it.
fn back_at<T: MapNumber>(f: &[T], g: &[T], k: usize, i: usize) -> bool
    requires { CanLook (T.nums f.now) (T.nums g.now) k i }
    ensures { result ≡ back_at k (T.nums f.now) (T.nums g.now) i }
{
    let x = f[i].place();
    x < k && g[x].place() == i
}

// Whether `g` leads back from all that `f` has below `k`.
fn leads_back<T: MapNumber>(f: &[T], g: &[T], k: usize) -> bool
    ensures { result ≡ half_test k (T.nums f.now) (T.nums g.now) }
{
    if f.len() < k || g.len() < k {
        return false;
    }
    for i in 0..k {
        if !back_at(f, g, k, i) {
            return false;
        }
    }
    true
}

// Whether the two maps are inverse to each other over 0..k, for any numbers in them.
pub fn are_inverse<T: MapNumber>(homes: &[T], logical: &[T], k: usize) -> bool
    ensures { result ≡ inverse_test k (T.nums homes.now) (T.nums logical.now) }
{
    leads_back(homes, logical, k) && leads_back(logical, homes, k)
}
