// The window of rows that is shown.
ghost use Rattle.std.specs.Prelude.{◌≡◌, ◌+◌, ◌≤◌};
ghost use Rattle.gr_print.specs.Block.{counted_from, window};

/// Rows that stand together: the number of the first, counted from 0, and how many there are.
#[derive(Clone, Copy, Debug, PartialEq, Eq)]
pub struct Span {
    /// The first.
    pub first: u64,
    /// How many.
    pub count: u64,
}

/// The window of an offset and a limit over so many rows. A negative offset counts from behind the last row, and a negative limit leaves out one row less than it
/// says.
pub fn window(found: u64, offset: i64, limit: i64) -> Span
    ensures exact { result ≡ window found offset limit }
    ensures within { result.first + result.count ≤ found }
{
    let first = counted_from(found, offset).min(found);
    let most = if limit < 0 {
        found.saturating_sub(limit.unsigned_abs() - 1)
    } else {
        limit.unsigned_abs()
    };
    Span {
        first,
        count: most.min(found - first),
    }
}

// A number that is counted from an end where it is negative, and then is no less than 0.
fn counted_from(end: u64, number: i64) -> u64
    ensures { result ≡ counted_from end number }
{
    if number < 0 {
        end.saturating_sub(number.unsigned_abs())
    } else {
        number.unsigned_abs()
    }
}
