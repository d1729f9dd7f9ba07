// A search whose cost grows with the logarithm of how far away the answer is.
ghost use Rattle.std.specs.Prelude.{◌≡◌, ◌+◌, ◌<◌, ◌≤◌, Bool, true, false, length};
ghost use Rattle.std.specs.Bool.{OnFalse, OnTrue};
ghost use Rattle.std.specs.List.{AllWithin};
ghost use Rattle.std.specs.List.Sorted.{IsPartitionPoint, IsPartitionedBy};

/// An element of a list that ascends by its keys.
pub(crate) trait Keyed {
    /// What places an element in its list.
    type Key;

    ghost is_before: { Self → Self.Key → Bool };

    /// Whether the element stands before a key.
    fn is_before(&self, key: &Self::Key) -> bool
        ensures { result ≡ is_before self.now key.now };
}

/// How many elements stand before a key.
#[inline]
pub(crate) fn count_before<T: Keyed>(items: &[T], key: &T::Key) -> usize
    requires { IsPartitionedBy (λ item. T.is_before item key.now) items.now }
    ensures bound { result ≤ length items.now }
    ensures exact { IsPartitionPoint (λ item. T.is_before item key.now ≡ true) (λ item. T.is_before item key.now ≡ false) items.now result }
{
    let mut low = 0usize;
    let mut step = 1usize;
    'steps: while is_before_at(items, low.saturating_add(step - 1), key) {
        low += step;
        step = step.saturating_mul(2);
    }
    let high = low.saturating_add(step - 1).min(items.len());
    count_between(items, key, low, high)
}

// How many elements stand before a key, of which these many do and these do not: it halves what is between.
fn count_between<T: Keyed>(items: &[T], key: &T::Key, from: usize, to: usize) -> usize
    requires partitioned { IsPartitionedBy (λ item. T.is_before item key.now) items.now }
    requires order { from ≤ to }
    requires bound { to ≤ length items.now }
    requires before { AllWithin (λ item. T.is_before item key.now ≡ true) items.now 0 from }
    requires after { AllWithin (λ item. T.is_before item key.now ≡ false) items.now to (length items.now) }
    ensures bound { result ≤ length items.now }
    ensures exact { IsPartitionPoint (λ item. T.is_before item key.now ≡ true) (λ item. T.is_before item key.now ≡ false) items.now result }
{
    let mut low = from;
    let mut high = to;
    'halves: while low < high {
        let middle = low + (high - low) / 2;
        if is_before_at(items, middle, key) {
            low = middle + 1;
        } else {
            high = middle;
        }
    }
    low
}

// Whether there is an element at a place and it stands before a key: then all up to it do, and otherwise none from it on.
#[inline]
fn is_before_at<T: Keyed>(items: &[T], place: usize, key: &T::Key) -> bool
    requires { IsPartitionedBy (λ item. T.is_before item key.now) items.now }
    ensures within { OnTrue result (place < length items.now) }
    ensures after { OnFalse result (AllWithin (λ item. T.is_before item key.now ≡ false) items.now place (length items.now)) }
    ensures before { OnTrue result (AllWithin (λ item. T.is_before item key.now ≡ true) items.now 0 (place + 1)) }
{
    place < items.len() && items[place].is_before(key)
}
