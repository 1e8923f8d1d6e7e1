// Rows compared from the first coordinate on. They have at most three, for which the library's comparisons of slices take several times as
// long.
ghost use Rattle.std.specs.Prelude.{◌≡◌, length};
ghost use Rattle.model.specs.Tensors.{same};
ghost use Rattle.model.specs.Running.{before};

pub(crate) fn comes_before(a: &[u32], b: &[u32]) -> bool
    ensures { result ≡ before a.now b.now }
{
    for i in 0..a.len() {
        if i >= b.len() {
            return false;
        }
        if a[i] != b[i] {
            return a[i] < b[i];
        }
    }
    false
}

pub(crate) fn is_same(a: &[u32], b: &[u32]) -> bool
    requires { length a.now ≡ length b.now }
    ensures { result ≡ same a.now b.now }
{
    for i in 0..a.len() {
        if a[i] != b[i] {
            return false;
        }
    }
    true
}
