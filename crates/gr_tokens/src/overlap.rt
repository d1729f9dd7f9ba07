// How near to each other two places of a phrase can stand.
ghost use Rattle.std.specs.Prelude.{◌≡◌, ◌<◌, ◌≤◌, ◌-◌, ℕ, IfSome, MatchOption, length, drop};
ghost use Rattle.gr_tokens.specs.Inside.Overlaps.{IsOverlap};
ghost use Rattle.gr_tokens.specs.Inside.Periods.{IsPeriod, NoShorter};

use memchr::memmem;

/// How near to each other two places of a phrase can stand.
#[derive(Drop)]
pub(crate) struct Overlap<'p> {
    /// No two places are nearer than this, in bytes. It is at least 1 and at most the phrase's length.
    pub(crate) apart: usize,
    /// The phrase's last bytes, `apart` of them, if two places can overlap and stand as near as that: a
    /// place that they follow is followed by another.
    pub(crate) tail: Option<&'p [u8]>,
}

impl<'p> Overlap<'p> {
    /// The overlap of a phrase with itself, in time linear in its length. Where two places are nearer than
    /// half a phrase, its first half stands in it.
    pub(crate) fn of(phrase: &'p [u8]) -> Overlap<'p>
        requires { 0 < length phrase.now }
        ensures { IsOverlap phrase.now result }
    {
        let apart = least_shift(phrase);
        Overlap {
            apart,
            tail: tail_of(phrase, apart),
        }
    }
}

// Where the first half of a phrase stands in it again, or would at the earliest.
fn least_shift(phrase: &[u8]) -> usize
    requires { 0 < length phrase.now }
    ensures low { 0 < result }
    ensures high { result ≤ length phrase.now }
    ensures none_nearer { NoShorter phrase.now (length phrase.now) result }
{
    let half = phrase.len() - phrase.len() / 2;
    match memmem::find(&phrase[1..], &phrase[..half]) {
        Some(at) => at + 1,
        None => phrase.len() - half + 1,
    }
}

// The last `apart` bytes of a phrase that stands over itself that far on and is longer than that.
fn tail_of(phrase: &[u8], apart: usize) -> Option<&[u8]>
    requires { apart ≤ length phrase.now }
    ensures { IfSome result (λ tail. IsPeriod phrase.now (length phrase.now) apart × (tail.now ≡ drop (length phrase.now - apart) phrase.now)) }
{
    if apart == phrase.len() {
        return None;
    }
    let kept = phrase.len() - apart;
    if phrase[apart..] == phrase[..kept] {
        Some(&phrase[kept..])
    } else {
        None
    }
}
