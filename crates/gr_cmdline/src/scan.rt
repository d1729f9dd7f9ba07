// Runs of bytes up to the first of a few.
ghost use Rattle.memchr.specs.Find.{is_byte2, is_byte3};
ghost use Rattle.gr_cmdline.specs.Inside.Reading.{EndsRun};

use memchr::{memchr2, memchr3};

/// How many bytes stand before the first of two, or before the end.
#[inline]
pub(crate) fn len_before_two(bytes: &[u8], one: u8, other: u8) -> usize
    ensures { EndsRun (is_byte2 one other) bytes.now result }
{
    match memchr2(one, other, bytes) {
        Some(len) => len,
        None => bytes.len(),
    }
}

/// How many bytes stand before the first of three, or before the end.
#[inline]
pub(crate) fn len_before_three(bytes: &[u8], first: u8, second: u8, third: u8) -> usize
    ensures { EndsRun (is_byte3 first second third) bytes.now result }
{
    match memchr3(first, second, third, bytes) {
        Some(len) => len,
        None => bytes.len(),
    }
}
