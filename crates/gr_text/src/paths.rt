// Names joined by dots.
ghost use Rattle.std.specs.Prelude.{◌≡◌, ◌+◌, ◌≤◌, IsUtf8, drop, length, take};
ghost use Rattle.std.specs.List.{prefix_len};
ghost use Rattle.gr_text.specs.Characters.{is_name_rest, is_name_start};
ghost use Rattle.gr_text.specs.Paths.{name_len, names_len, path_len};

/// The length of the path that the bytes begin with, as long as it goes, 0 for none.
// Inlined, this loop would make its caller keep each token in memory.
#[inline(never)]
pub fn path_len(bytes: &[u8]) -> usize
    ensures exact { result ≡ path_len bytes.now }
    ensures within { result ≤ length bytes.now }
    ensures text { IsUtf8 (take result bytes.now) }
    ensures rest { IsUtf8 bytes.now → IsUtf8 (drop result bytes.now) }
{
    let first = name_len(bytes);
    if first == 0 {
        return 0;
    }
    let mut rest = bytes.split_at(first).1;
    'names: loop {
        let len = next_name_len(rest);
        if len == 0 {
            return bytes.len() - rest.len();
        }
        rest = rest.split_at(len).1;
    }
}

/// The length of a dot and the name behind it, 0 where none stands here.
fn next_name_len(bytes: &[u8]) -> usize
    ensures within { result ≤ length bytes.now }
    ensures further { names_len 0 bytes.now ≡ result + names_len 0 (drop result bytes.now) }
    ensures none { result ≡ 0 → names_len 0 bytes.now ≡ 0 }
{
    let Some((first, others)) = bytes.split_first() else {
        return 0;
    };
    if *first != b'.' {
        return 0;
    }
    match name_len(others) {
        0 => 0,
        len => 1 + len,
    }
}

/// The length of the name that the bytes begin with, 0 for none.
fn name_len(bytes: &[u8]) -> usize
    ensures exact { result ≡ name_len bytes.now }
    ensures within { result ≤ length bytes.now }
{
    match bytes {
        [first, others @ ..] if is_name_start(*first) => 1 + count_name_rest(others),
        _ => 0,
    }
}

fn count_name_rest(bytes: &[u8]) -> usize
    ensures exact { result ≡ prefix_len is_name_rest bytes.now }
    ensures within { result ≤ length bytes.now }
{
    bytes.iter().take_while(|byte| is_name_rest(**byte)).count()
}

/// A letter or `_`, with which a name begins.
pub fn is_name_start(byte: u8) -> bool
    ensures { result ≡ is_name_start byte }
{
    byte.is_ascii_alphabetic() || byte == b'_'
}

/// A letter, a digit or `_`.
fn is_name_rest(byte: u8) -> bool
    ensures { result ≡ is_name_rest byte }
{
    byte.is_ascii_alphanumeric() || byte == b'_'
}
