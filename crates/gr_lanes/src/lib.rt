// Comparisons of up to 64 values at once, each answered by a mask of bits.
#![tactic(auto)]

mod chosen;
mod lanes;
#[cfg(test)]
mod tests;

ghost use Rattle.std.specs.Prelude.{◌≡◌, ◌≤◌, [], length, MatchOption};
ghost use Rattle.gr_lanes.specs.Mask.{AreEnds, IsMask, compares_signed, compares_unsigned, is_between};

use chosen::{Above, Below, Equal, From, Other, UpTo};
use gr_base::Cmp;
use lanes::{Between, Signed, Unsigned, mask_by};

/// Which of at most 64 values compare so with `against`: bit i speaks of value i, and the bits above are 0.
pub fn mask_i64(values: &[i64], cmp: Cmp, against: i64) -> u64
    requires { length values.now ≤ 64 }
    ensures { IsMask (compares_signed cmp against) values.now result }
{
    match cmp {
        Cmp::Eq => mask_by(values, &Signed::<Equal>::new(against)),
        Cmp::Ne => mask_by(values, &Signed::<Other>::new(against)),
        Cmp::Lt => mask_by(values, &Signed::<Below>::new(against)),
        Cmp::Le => mask_by(values, &Signed::<UpTo>::new(against)),
        Cmp::Gt => mask_by(values, &Signed::<Above>::new(against)),
        Cmp::Ge => mask_by(values, &Signed::<From>::new(against)),
    }
}

/// The same for unsigned values.
pub fn mask_u64(values: &[u64], cmp: Cmp, against: u64) -> u64
    requires { length values.now ≤ 64 }
    ensures { IsMask (compares_unsigned cmp against) values.now result }
{
    match cmp {
        Cmp::Eq => mask_by(values, &Unsigned::<Equal>::new(against)),
        Cmp::Ne => mask_by(values, &Unsigned::<Other>::new(against)),
        Cmp::Lt => mask_by(values, &Unsigned::<Below>::new(against)),
        Cmp::Le => mask_by(values, &Unsigned::<UpTo>::new(against)),
        Cmp::Gt => mask_by(values, &Unsigned::<Above>::new(against)),
        Cmp::Ge => mask_by(values, &Unsigned::<From>::new(against)),
    }
}

/// Which of at most 64 values stand between two ends, both included.
pub fn between_i64(values: &[i64], low: i64, high: i64) -> u64
    requires { length values.now ≤ 64 }
    ensures { IsMask (is_between low high) values.now result }
{
    mask_by(values, &Between { low, high })
}

/// The least and the greatest of at most 64 values, and `None` where there is none.
pub fn min_max_i64(values: &[i64]) -> Option<(i64, i64)>
    requires { length values.now ≤ 64 }
    ensures { MatchOption result (values.now ≡ []) (λ ends. AreEnds values.now ends.0 ends.1) }
{
    let (first, others) = values.split_first()?;
    let mut least = *first;
    let mut greatest = *first;
    for value in others {
        least = least.min(*value);
        greatest = greatest.max(*value);
    }
    Some((least, greatest))
}
