// Tests of values, eight at a time in vectors and one at a time at the end.
ghost use Rattle.std.specs.Prelude.{◌≡◌, ◌≤◌, ◌*◌, ◌/◌, All, Bool, FitsSigned, length, map, take};
ghost use Rattle.std.specs.Int.{w64};
ghost use Rattle.std.specs.Ordering.{int_cmp, nat_cmp};
ghost use Rattle.std.specs.Simd.Lanes.{mask_l};
ghost use Rattle.gr_base.specs.Compare.{is_met};
ghost use Rattle.gr_lanes.specs.Mask.{IsMask, compares_signed, compares_unsigned, is_between};

use super::chosen::Chosen;
use gr_base::Cmp;
use std::cmp::Ordering;
use std::marker::PhantomData;
use std::simd::prelude::*;

/// A test of one value, and of eight at once.
pub(crate) trait Test<V> {
    ghost passes: { Self → V → Bool };

    fn one(&self, value: V) -> bool
        ensures { result ≡ passes self.now value };

    fn eight(&self, values: &[V]) -> u64
        requires { length values.now ≡ 8 }
        ensures { result ≡ mask_l (map (passes self.now) values.now) };
}

/// A comparison of signed values with one. Which comparison it is stands in the type, so that each has a loop of its own.
#[derive(Drop)]
pub(crate) struct Signed<C> {
    against: i64,
    chosen: PhantomData<C>,
}

impl<C> Signed<C> {
    pub(crate) fn new(against: i64) -> Signed<C>
        ensures { result.against ≡ against }
    {
        Signed {
            against,
            chosen: PhantomData,
        }
    }
}

/// The same of unsigned values.
#[derive(Drop)]
pub(crate) struct Unsigned<C> {
    against: u64,
    chosen: PhantomData<C>,
}

impl<C> Unsigned<C> {
    pub(crate) fn new(against: u64) -> Unsigned<C>
        ensures { result.against ≡ against }
    {
        Unsigned {
            against,
            chosen: PhantomData,
        }
    }
}

/// Two ends that signed values are to stand between.
#[derive(Drop)]
pub(crate) struct Between {
    pub low: i64,
    pub high: i64,
}

impl<C: Chosen> Test<i64> for Signed<C> {
    ghost passes = { λ test. compares_signed C.chosen test.against };

    fn one(&self, value: i64) -> bool {
        meets(C::cmp(), value.cmp(&self.against))
    }

    fn eight(&self, values: &[i64]) -> u64 {
        compare_signed(values, C::cmp(), self.against)
    }
}

impl<C: Chosen> Test<u64> for Unsigned<C> {
    ghost passes = { λ test. compares_unsigned C.chosen test.against };

    fn one(&self, value: u64) -> bool {
        meets(C::cmp(), value.cmp(&self.against))
    }

    fn eight(&self, values: &[u64]) -> u64 {
        compare_unsigned(values, C::cmp(), self.against)
    }
}

impl Test<i64> for Between {
    ghost passes = { λ test. is_between test.low test.high };

    fn one(&self, value: i64) -> bool {
        self.low <= value && value <= self.high
    }

    fn eight(&self, values: &[i64]) -> u64 {
        compare_signed(values, Cmp::Ge, self.low) & compare_signed(values, Cmp::Le, self.high)
    }
}

fn compare_signed(values: &[i64], cmp: Cmp, against: i64) -> u64
    requires { length values.now ≡ 8 }
    ensures { result ≡ mask_l (map (compares_signed cmp against) values.now) }
{
    each_fits(values);
    let lanes = i64x8::from_slice(values);
    let against = i64x8::splat(against);
    match cmp {
        Cmp::Eq => lanes.simd_eq(against).to_bitmask(),
        Cmp::Ne => lanes.simd_ne(against).to_bitmask(),
        Cmp::Lt => lanes.simd_lt(against).to_bitmask(),
        Cmp::Le => lanes.simd_le(against).to_bitmask(),
        Cmp::Gt => lanes.simd_gt(against).to_bitmask(),
        Cmp::Ge => lanes.simd_ge(against).to_bitmask(),
    }
}

fn compare_unsigned(values: &[u64], cmp: Cmp, against: u64) -> u64
    requires { length values.now ≡ 8 }
    ensures { result ≡ mask_l (map (compares_unsigned cmp against) values.now) }
{
    let lanes = u64x8::from_slice(values);
    let against = u64x8::splat(against);
    match cmp {
        Cmp::Eq => lanes.simd_eq(against).to_bitmask(),
        Cmp::Ne => lanes.simd_ne(against).to_bitmask(),
        Cmp::Lt => lanes.simd_lt(against).to_bitmask(),
        Cmp::Le => lanes.simd_le(against).to_bitmask(),
        Cmp::Gt => lanes.simd_gt(against).to_bitmask(),
        Cmp::Ge => lanes.simd_ge(against).to_bitmask(),
    }
}

/// Reads each value, so that the proof learns that it fits its type; LLVM leaves the loop out.
fn each_fits(values: &[i64])
    ensures { All (FitsSigned w64) values.now }
{
    for value in values {
        let _value = *value;
    }
}

fn meets(cmp: Cmp, order: Ordering) -> bool
    ensures { result ≡ is_met cmp order }
{
    match cmp {
        Cmp::Eq => order.is_eq(),
        Cmp::Ne => order.is_ne(),
        Cmp::Lt => order.is_lt(),
        Cmp::Le => order.is_le(),
        Cmp::Gt => order.is_gt(),
        Cmp::Ge => order.is_ge(),
    }
}

/// Which of the values pass.
pub(crate) fn mask_by<V: Copy, T: Test<V>>(values: &[V], test: &T) -> u64
    requires { length values.now ≤ 64 }
    ensures { IsMask (T.passes test.now) values.now result }
{
    let mut mask = mask_of_eights(values, test);
    for place in values.len() / 8 * 8..values.len() {
        mask |= u64::from(test.one(values[place])) << place;
    }
    mask
}

fn mask_of_eights<V: Copy, T: Test<V>>(values: &[V], test: &T) -> u64
    requires { length values.now ≤ 64 }
    ensures { result ≡ mask_l (map (T.passes test.now) (take (length values.now / 8 * 8) values.now)) }
{
    let mut mask = 0;
    for group in 0..values.len() / 8 {
        let at = group * 8;
        mask |= test.eight(&values[at..at + 8]) << at;
    }
    mask
}
