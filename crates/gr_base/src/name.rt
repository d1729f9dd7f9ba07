// The rule for names of tables and columns.
ghost use Rattle.std.specs.Prelude.{◌≡◌};
ghost use Rattle.std.specs.List.{list_all};
ghost use Rattle.gr_base.specs.Name.{is_name, is_name_byte};

use crate::limits::LONGEST_NAME;

/// Whether a text is a name: ASCII letters, digits and `_`, the first a letter, `LONGEST_NAME` of them at most.
pub fn is_name(text: &[u8]) -> bool
    ensures { result ≡ is_name text.now }
{
    match text {
        [] => false,
        [first, rest @ ..] => {
            first.is_ascii_alphabetic() && are_name_bytes(rest) && text.len() <= LONGEST_NAME
        }
    }
}

fn are_name_bytes(text: &[u8]) -> bool
    ensures { result ≡ list_all is_name_byte text.now }
{
    text.iter()
        .all(|byte| byte.is_ascii_alphanumeric() || *byte == b'_')
}
