// Numbers in decimal.
ghost use Rattle.std.specs.Prelude.{◌≡◌, ◌+◌, ◌*◌, ◌<◌, ◌≤◌, ◌^◌, IsUtf8, drop, length};
ghost use Rattle.std.specs.Char.{IsAsciiDigit, digit_value};
ghost use Rattle.std.specs.Option.{SomeIff};
ghost use Rattle.gr_text.specs.Digits.{digits_len, number_from, word_of};

/// How many digits the bytes begin with.
pub fn digits_len(bytes: &[u8]) -> usize
    ensures exact { result ≡ digits_len bytes.now }
    ensures within { result ≤ length bytes.now }
    ensures rest { IsUtf8 bytes.now → IsUtf8 (drop result bytes.now) }
{
    count_digits(bytes)
}

fn count_digits(bytes: &[u8]) -> usize
    ensures exact { result ≡ digits_len bytes.now }
    ensures within { result ≤ length bytes.now }
{
    bytes
        .iter()
        .take_while(|byte| byte.is_ascii_digit())
        .count()
}

/// The number that the digits mean with which the bytes begin, of which there are so many, and `None` where it is above 2^64 - 1. No digit means 0.
pub fn number_from(bytes: &[u8], len: usize) -> Option<u64>
    requires { len ≡ digits_len bytes.now }
    ensures { result ≡ word_of (number_from bytes.now) }
{
    let (digits, _) = bytes.split_at(len);
    let mut number = 0;
    for digit in digits {
        number = with_digit(number, *digit)?;
    }
    Some(number)
}

/// The number with one more digit, and `None` where it does not fit.
fn with_digit(number: u64, digit: u8) -> Option<u64>
    requires { IsAsciiDigit digit }
    ensures { SomeIff result (number * 10 + digit_value digit < 2 ^ 64) (number * 10 + digit_value digit) }
{
    number.checked_mul(10)?.checked_add(u64::from(digit - b'0'))
}
