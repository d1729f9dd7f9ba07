// Two scores together.
ghost use Rattle.std.specs.Prelude.{◌≡◌};
ghost use Rattle.gr_hits.specs.Hits.{both_score, sum, without_score};

use gr_base::MOST_SCORE;

/// The sum of two scores; it stands still at the highest.
#[inline]
pub(crate) fn sum(left: u32, right: u32) -> u32
    ensures { result ≡ sum left right }
{
    (u64::from(left) + u64::from(right)).min(u64::from(MOST_SCORE)) as u32
}

/// The score where both were found; 0 otherwise.
#[inline]
pub(crate) fn both_score(left: u32, right: u32) -> u32
    ensures { result ≡ both_score left right }
{
    if left == 0 || right == 0 {
        0
    } else {
        sum(left, right)
    }
}

/// The left score where the right one was not found; 0 otherwise.
#[inline]
pub(crate) fn without_score(left: u32, right: u32) -> u32
    ensures { result ≡ without_score left right }
{
    if right == 0 { left } else { 0 }
}
