// Masks over a block of whole numbers. A number outside the type's range is settled without lanes.
ghost use Rattle.std.specs.Prelude.{◌≡◌, ◌<◌, ◌^◌, All, FitsSigned, length, pos, if◌then◌else◌};
ghost use Rattle.std.specs.Int.{w64};
ghost use Rattle.std.specs.declared.cmp.Ordering.TheVariants.{Less, Greater};
ghost use Rattle.gr_base.specs.Compare.{is_met};
ghost use Rattle.gr_lanes.specs.Mask.{IsMask, compares_signed};

use crate::places::BLOCK_CELLS;
use gr_base::Cmp;
use gr_lanes::{mask_i64, mask_u64};

/// Which of a block's numbers compare so with `against`.
pub(crate) fn signed_mask(values: &[i64], cmp: Cmp, against: i128) -> u64
    requires { length values.now ≡ BLOCK_CELLS }
    ensures { IsMask (compares_signed cmp against) values.now result }
{
    match i64::try_from(against) {
        Ok(number) => mask_i64(values, cmp, number),
        Err(_) => {
            each_signed(values);
            everywhere(cmp, against < 0)
        }
    }
}

/// The same for numbers from 0 on.
pub(crate) fn unsigned_mask(values: &[u64], cmp: Cmp, against: i128) -> u64
    requires { length values.now ≡ BLOCK_CELLS }
    ensures { IsMask (λ number. compares_signed cmp against (pos number)) values.now result }
{
    match u64::try_from(against) {
        Ok(number) => mask_u64(values, cmp, number),
        Err(_) => {
            each_unsigned(values);
            everywhere(cmp, against < 0)
        }
    }
}

/// Reads each value, so that the proof learns that it fits its type; LLVM leaves the loop out.
fn each_signed(values: &[i64])
    ensures { All (FitsSigned w64) values.now }
{
    for value in values {
        let _value = *value;
    }
}

/// The same for numbers from 0 on.
fn each_unsigned(values: &[u64])
    ensures { All (λ value. value < 2 ^ 64) values.now }
{
    for value in values {
        let _value = *value;
    }
}

/// The mask where each number is above what it is compared with, or each below.
fn everywhere(cmp: Cmp, above: bool) -> u64
    ensures { result ≡ (if is_met cmp (if above then Greater else Less) then u64.MAX else 0) }
{
    let met = match cmp {
        Cmp::Eq => false,
        Cmp::Ne => true,
        Cmp::Lt | Cmp::Le => !above,
        Cmp::Gt | Cmp::Ge => above,
    };
    if met { u64::MAX } else { 0 }
}
