// The scores at the 64 places of a block, by their binary digits, so that two blocks of scores are joined in a few steps.
ghost use Rattle.std.specs.Prelude.{◌≡◌, ◌<◌, ◌+◌, ◌-◌, ◌*◌, ℕ, min, IfSome};
ghost use Rattle.std.specs.Int.{bit_at};
ghost use Rattle.gr_columns.specs.declared.places.TheConstants.{BLOCK_CELLS};
ghost use Rattle.gr_expr.specs.Score.{joined};
ghost use Rattle.gr_plan.specs.Inside.Planes.{score_in};

use gr_expr::Join;

/// A score up to 15 at each place: bit i of each mask is a digit of the score at place i.
#[derive(Clone, Copy)]
pub(crate) struct Planes {
    pub(crate) ones: u64,
    pub(crate) twos: u64,
    pub(crate) fours: u64,
    pub(crate) eights: u64,
}

/// The score 1 where the mask is set.
pub(crate) fn once(mask: u64) -> Planes
    ensures { (place : ℕ) → score_in result place ≡ bit_at mask place }
{
    Planes {
        ones: mask,
        twos: 0,
        fours: 0,
        eights: 0,
    }
}

/// The places where the score is above 0.
pub(crate) fn found(scores: Planes) -> u64
    ensures { (place : ℕ) → bit_at result place ≡ min 1 (score_in scores place) }
{
    (scores.ones | scores.twos) | (scores.fours | scores.eights)
}

/// The score at a place.
pub(crate) fn score_at(scores: Planes, place: u32) -> u32
    requires { place < BLOCK_CELLS }
    ensures { result ≡ score_in scores place }
{
    digit(scores.ones, place)
        + 2 * digit(scores.twos, place)
        + 4 * digit(scores.fours, place)
        + 8 * digit(scores.eights, place)
}

/// The bit of a mask at a place.
pub(crate) fn digit(mask: u64, place: u32) -> u32
    requires { place < BLOCK_CELLS }
    ensures exact { result ≡ bit_at mask place }
    ensures small { result < 2 }
{
    ((mask >> place) & 1) as u32
}

/// The score 1 at the places of the mask where the score is 0.
pub(crate) fn absent(scores: Planes, mask: u64) -> Planes
    ensures { (place : ℕ) → place < BLOCK_CELLS → score_in result place ≡ bit_at mask place - min 1 (score_in scores place) }
{
    once(mask & !found(scores))
}

/// The scores joined, place by place; none where a sum is above 15.
pub(crate) fn joined(join: Join, left: Planes, right: Planes) -> Option<Planes>
    ensures { IfSome result (λ made. (place : ℕ) → place < BLOCK_CELLS → score_in made place ≡ joined join (score_in left place) (score_in right place)) }
{
    match join {
        Join::And => {
            let both = found(left) & found(right);
            sum(within(left, both), within(right, both))
        }
        Join::Or => sum(left, right),
        Join::Without => Some(within(left, !found(right))),
    }
}

// The scores at the places of the mask.
fn within(scores: Planes, mask: u64) -> Planes
    ensures set { (place : ℕ) → bit_at mask place ≡ 1 → score_in result place ≡ score_in scores place }
    ensures unset { (place : ℕ) → bit_at mask place ≡ 0 → score_in result place ≡ 0 }
{
    Planes {
        ones: scores.ones & mask,
        twos: scores.twos & mask,
        fours: scores.fours & mask,
        eights: scores.eights & mask,
    }
}

// A digit of a sum at each place, and what is carried to the next digit.
#[derive(Clone, Copy)]
struct Digits {
    digit: u64,
    carry: u64,
}

fn added(left: u64, right: u64, carried: u64) -> Digits
    ensures { (place : ℕ) → bit_at result.digit place + 2 * bit_at result.carry place ≡ bit_at left place + bit_at right place + bit_at carried place }
{
    let differ = left ^ right;
    Digits {
        digit: differ ^ carried,
        carry: (left & right) | (differ & carried),
    }
}

// The scores added, place by place; none where a sum is above 15.
fn sum(left: Planes, right: Planes) -> Option<Planes>
    ensures { IfSome result (λ made. (place : ℕ) → score_in made place ≡ score_in left place + score_in right place) }
{
    let ones = added(left.ones, right.ones, 0);
    let twos = added(left.twos, right.twos, ones.carry);
    let fours = added(left.fours, right.fours, twos.carry);
    let eights = added(left.eights, right.eights, fours.carry);
    if eights.carry == 0 {
        Some(Planes {
            ones: ones.digit,
            twos: twos.digit,
            fours: fours.digit,
            eights: eights.digit,
        })
    } else {
        None
    }
}
