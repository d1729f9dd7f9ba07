// Counting up to the greatest count that is told.
ghost use Rattle.std.specs.Prelude.{◌≡◌, ◌+◌, if◌then◌else◌, min};

/// The greatest count of places that is told.
pub(crate) const MOST_PLACES: u32 = 2_147_483_647;

/// The count with one more place.
pub(crate) fn one_more(count: u32) -> u32
    ensures { result ≡ min (count + 1) 2147483647 }
{
    count.saturating_add(1).min(MOST_PLACES)
}

/// The count with one more place, if there is one.
pub(crate) fn one_more_if(count: u32, is_place: bool) -> u32
    ensures { result ≡ (if is_place then min (count + 1) 2147483647 else count) }
{
    if is_place { one_more(count) } else { count }
}
