// The marks of the grammar, as bytes.
ghost use Rattle.std.specs.Prelude.{◌≡◌, ◌<◌, OnSome};
ghost use Rattle.gr_script.specs.Token.{long_symbol, short_symbol};

use crate::token::Symbol;

/// The mark that two bytes are.
pub(crate) fn long_symbol(first: u8, second: u8) -> Option<Symbol>
    ensures exact { result ≡ long_symbol first second }
    ensures first { OnSome result (first < 128) }
    ensures second { OnSome result (second < 128) }
    ensures some { OnSome result (0 < second) }
{
    match (first, second) {
        (b'|', b'|') => Some(Symbol::Or),
        (b'&', b'&') => Some(Symbol::And),
        (b'&', b'!') => Some(Symbol::Without),
        (b'=', b'=') => Some(Symbol::Eq),
        (b'!', b'=') => Some(Symbol::Ne),
        (b'<', b'=') => Some(Symbol::Le),
        (b'>', b'=') => Some(Symbol::Ge),
        (b'@', b'^') => Some(Symbol::Prefix),
        (b'@', b'$') => Some(Symbol::Suffix),
        _ => None,
    }
}

/// The mark that one byte is.
pub(crate) fn short_symbol(byte: u8) -> Option<Symbol>
    ensures exact { result ≡ short_symbol byte }
    ensures ascii { OnSome result (byte < 128) }
{
    match byte {
        b'(' => Some(Symbol::Open),
        b')' => Some(Symbol::Close),
        b',' => Some(Symbol::Comma),
        b'<' => Some(Symbol::Lt),
        b'>' => Some(Symbol::Gt),
        b'@' => Some(Symbol::Match),
        b'+' => Some(Symbol::Plus),
        b'-' => Some(Symbol::Minus),
        b'*' => Some(Symbol::Star),
        b'/' => Some(Symbol::Slash),
        b'%' => Some(Symbol::Percent),
        b'!' => Some(Symbol::Not),
        _ => None,
    }
}
