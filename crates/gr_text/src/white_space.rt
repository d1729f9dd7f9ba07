// White space between tokens.
ghost use Rattle.std.specs.Prelude.{◌≡◌, ◌≤◌, IsUtf8, drop, length};
ghost use Rattle.gr_text.specs.Characters.{white_space_len, is_white_space};

/// How much white space the bytes begin with.
pub fn white_space_len(bytes: &[u8]) -> usize
    ensures exact { result ≡ white_space_len bytes.now }
    ensures within { result ≤ length bytes.now }
    ensures rest { IsUtf8 bytes.now → IsUtf8 (drop result bytes.now) }
{
    count_white_space(bytes)
}

fn count_white_space(bytes: &[u8]) -> usize
    ensures exact { result ≡ white_space_len bytes.now }
    ensures within { result ≤ length bytes.now }
{
    bytes
        .iter()
        .take_while(|byte| is_white_space(**byte))
        .count()
}

/// A space, a tab, a line feed or a carriage return.
pub fn is_white_space(byte: u8) -> bool
    ensures { result ≡ is_white_space byte }
{
    byte == b' ' || byte == b'\t' || byte == b'\n' || byte == b'\r'
}
