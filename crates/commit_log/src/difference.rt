// Where two texts differ.
ghost use Rattle.std.specs.Prelude.{◌≡◌, ◌≤◌, None, IfSome, length};
ghost use Rattle.commit_log.specs.Images.{DiffersAt};

// Returns the first place where two texts differ. If one is the beginning of the other, that is the length of the
// shorter one. It returns None if they are equal.
pub(crate) fn first_difference(xs: &[u8], ys: &[u8]) -> Option<usize>
    ensures differs { IfSome result (DiffersAt xs.now ys.now) }
    ensures same { result ≡ None → xs.now ≡ ys.now }
    ensures within { IfSome result (λ at. at ≤ length xs.now) }
{
    let shorter = xs.len().min(ys.len());
    for i in 0..shorter {
        if xs[i] != ys[i] {
            return Some(i);
        }
    }
    if xs.len() == ys.len() {
        None
    } else {
        Some(shorter)
    }
}
