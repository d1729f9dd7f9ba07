// The kernels against one value at a time, at the ends of both types and around blocks of eight.
use super::*;

const SIGNED: [i64; 5] = [i64::MIN, -1, 0, 1, i64::MAX];

const UNSIGNED: [u64; 4] = [0, 1, 1 << 63, u64::MAX];

const LENGTHS: [usize; 7] = [0, 1, 2, 7, 8, 63, 64];

fn wanted(cmp: Cmp, below: bool, equal: bool) -> bool {
    match cmp {
        Cmp::Eq => equal,
        Cmp::Ne => !equal,
        Cmp::Lt => below,
        Cmp::Le => below || equal,
        Cmp::Gt => !below && !equal,
        Cmp::Ge => !below,
    }
}

#[test]
fn each_bit_is_the_plain_comparison_of_its_value(rt: HostRuntime) {
    let mut signed = [0i64; 64];
    let mut unsigned = [0u64; 64];
    for place in 0..64usize {
        signed[place] = SIGNED[place * 3 % 5];
        unsigned[place] = UNSIGNED[place * 3 % 4];
    }
    for length in LENGTHS {
        for cmp in [Cmp::Eq, Cmp::Ne, Cmp::Lt, Cmp::Le, Cmp::Gt, Cmp::Ge] {
            for against in SIGNED {
                let mask = mask_i64(&signed[..length], cmp, against);
                for place in 0..64usize {
                    let bit = mask >> place & 1 == 1;
                    let value = signed[place];
                    let passes = place < length && wanted(cmp, value < against, value == against);
                    assert_eq!(rt;
                        bit,
                        passes,
                        "{value} {cmp:?} {against} at {place} of {length}"
                    );
                }
            }
            for against in UNSIGNED {
                let mask = mask_u64(&unsigned[..length], cmp, against);
                for place in 0..64usize {
                    let bit = mask >> place & 1 == 1;
                    let value = unsigned[place];
                    let passes = place < length && wanted(cmp, value < against, value == against);
                    assert_eq!(rt;
                        bit,
                        passes,
                        "{value} {cmp:?} {against} at {place} of {length}"
                    );
                }
            }
        }
        for low in SIGNED {
            for high in SIGNED {
                let mask = between_i64(&signed[..length], low, high);
                for place in 0..64usize {
                    let bit = mask >> place & 1 == 1;
                    let value = signed[place];
                    let passes = place < length && !(value < low || high < value);
                    assert_eq!(rt; bit, passes, "{low} {value} {high} at {place} of {length}");
                }
            }
        }
    }
}

#[test]
fn ends_are_those_of_the_values(rt: HostRuntime) {
    assert_eq!(rt; min_max_i64(&[]), None);
    assert_eq!(rt; min_max_i64(&[7]), Some((7, 7)));
    assert_eq!(rt; min_max_i64(&[-3, -9, -5]), Some((-9, -3)));
    assert_eq!(rt; min_max_i64(&SIGNED), Some((i64::MIN, i64::MAX)));
}
