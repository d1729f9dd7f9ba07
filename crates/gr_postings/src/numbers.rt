// Numbers in bytes, for the crates that keep postings as bytes.
ghost use Rattle.std.specs.Prelude.{◌≡◌, ◌<◌, ◌^◌, OnOk};
ghost use Rattle.gr_postings.specs.Numbers.{AppendsNumber, after_number, after_numbers, number_at};
ghost use Rattle.gr_postings.specs.Inside.High.{AppendsHigh};

use gr_base::NoMemory;

/// Appends the bytes of a number: seven bits a byte, the high ones first, and 128 added to each but the last.
#[inline]
pub fn push_number(bytes: &mut Vec<u8>, number: u64) -> Result<(), NoMemory>
    ensures { OnOk result (AppendsNumber bytes.old.items bytes.new.items number) }
{
    push_high(bytes, number / 128)?;
    bytes.push((number % 128) as u8)?;
    Ok(())
}

// Appends the bytes before the last one of a number, of which this is all but the last seven bits.
fn push_high(bytes: &mut Vec<u8>, high: u64) -> Result<(), NoMemory>
    ensures { OnOk result (AppendsHigh bytes.old.items bytes.new.items high) }
{
    if high == 0 {
        return Ok(());
    }
    push_high(bytes, high / 128)?;
    bytes.push((high % 128 + 128) as u8)?;
    Ok(())
}

/// The number at the front of the bytes, and the bytes after it.
#[tactic(auto, using(crate::proofs::NumberLemmas::number_grows))]
#[inline]
pub fn read_number(bytes: &[u8]) -> (u64, &[u8])
    requires { number_at bytes.now < 2 ^ 64 }
    ensures number { result.0 ≡ number_at bytes.now }
    ensures rest { result.1.now ≡ after_number bytes.now }
{
    let mut number = 0u64;
    let mut rest = bytes;
    while let [byte, after @ ..] = rest {
        rest = after;
        if *byte < 128 {
            return (number * 128 + u64::from(*byte), rest);
        }
        number = number * 128 + u64::from(*byte - 128);
    }
    (number, rest)
}

/// The bytes after so many numbers.
#[inline]
pub(crate) fn skip_numbers(bytes: &[u8], count: u64) -> &[u8]
    ensures { result.now ≡ after_numbers count bytes.now }
{
    let mut left = count;
    let mut rest = bytes;
    while left > 0 {
        rest = skip_number(rest);
        left -= 1;
    }
    rest
}

// The bytes after the number at the front.
#[inline]
fn skip_number(bytes: &[u8]) -> &[u8]
    ensures { result.now ≡ after_number bytes.now }
{
    let mut rest = bytes;
    while let [byte, after @ ..] = rest {
        rest = after;
        if *byte < 128 {
            return rest;
        }
    }
    rest
}
