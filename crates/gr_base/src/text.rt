// The bytes of texts.
ghost use Rattle.std.specs.Prelude.{◌≡◌};
ghost use Rattle.gr_base.specs.Text.{is_blank};

/// Whether a byte stands between the words of a line: a space or a tab.
pub fn is_blank(byte: u8) -> bool
    ensures { result ≡ is_blank byte }
{
    byte == b' ' || byte == b'\t'
}
