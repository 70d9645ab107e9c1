// The arrays of a page.
ghost use Rattle.std.specs.Prelude.{◌≡◌, ℕ, ◌+◌, ◌<◌, ◌≤◌, length, slice_index, slice_index_or};
ghost use Rattle.std.specs.List.Sorted.{IsNonDecreasing};

// Puts x at the place i among the first n items, and moves those from i on up by one.
pub(crate) fn insert_at<T: Copy>(xs: &mut [T], n: usize, i: usize, x: T)
    requires room { n < length xs.old }
    requires within { i ≤ n }
    ensures len { length xs.new ≡ length xs.old }
    ensures before { (k : ℕ) (d : T) → k < i → slice_index_or xs.new k d ≡ slice_index_or xs.old k d }
    ensures there { (d : T) → slice_index_or xs.new i d ≡ x }
    ensures after { (k : ℕ) (d : T) → i ≤ k → k < n → slice_index_or xs.new (k + 1) d ≡ slice_index_or xs.old k d }
{
    xs[n] = x;
    if i < n {
        xs[i..n + 1].rotate_right(1);
    }
}

// Moves the first n items after all others.
pub(crate) fn rotate<T: Copy>(xs: &mut [T], n: usize)
    requires { n ≤ length xs.old }
    ensures len { length xs.new ≡ length xs.old }
    ensures front { (k : ℕ) (d : T) → k + n < length xs.old → slice_index_or xs.new k d ≡ slice_index_or xs.old (n + k) d }
{
    xs.rotate_left(n);
}

// How many of these numbers, which are in non-decreasing order, are less than x.
pub(crate) fn count_below(xs: &[u64], x: u64) -> usize
    requires { IsNonDecreasing xs.now }
    ensures bound { result ≤ length xs.now }
    ensures before { (k : ℕ) → k < result → slice_index xs.now k < x }
    ensures after { (k : ℕ) → result ≤ k → k < length xs.now → x ≤ slice_index xs.now k }
{
    let mut low = 0;
    let mut high = xs.len();
    while low < high {
        let middle = low + (high - low) / 2;
        if xs[middle] < x {
            low = middle + 1;
        } else {
            high = middle;
        }
    }
    low
}
