// Texts cut at a byte.
ghost use Rattle.std.specs.Prelude.{◌≡◌, ◌∷◌, ◌<◌, ◌==◌, [], IfSome, MatchOption, length};
ghost use Rattle.std.specs.List.{position, slice_split};

/// The text before the first such byte and the text after it.
pub(crate) fn cut(text: &[u8], at: u8) -> Option<(&[u8], &[u8])>
    ensures pieces { MatchOption result
        (slice_split (λ byte. byte == at) text.now ≡ text.now ∷ [])
        (λ parts. slice_split (λ byte. byte == at) text.now ≡ parts.0.now ∷ slice_split (λ byte. byte == at) parts.1.now) }
    ensures shorter { IfSome result (λ parts. length parts.1.now < length text.now) }
{
    match place_of(text, at) {
        Some(place) => Some((&text[..place], &text[place + 1..])),
        None => None,
    }
}

// The place of the first such byte.
fn place_of(text: &[u8], at: u8) -> Option<usize>
    ensures exact { result ≡ position (λ byte. byte == at) text.now }
    ensures within { IfSome result (λ place. place < length text.now) }
{
    text.iter().position(|byte| *byte == at)
}
