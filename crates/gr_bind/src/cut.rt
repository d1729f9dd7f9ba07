// Two names with a dot between them.
ghost use Rattle.std.specs.Prelude.{◌≡◌, ◌∷◌, ◌<◌, ◌==◌, [], IfSome, MatchOption, length};
ghost use Rattle.std.specs.List.{position, slice_split};
ghost use Rattle.std.specs.Option.{option_map};
ghost use Rattle.gr_bind.specs.Inside.Names.{two_of};
ghost use Rattle.gr_schema.specs.Paths.{is_dot};

// The two names that a text has, and none where it has more or fewer.
pub(crate) fn two_names(text: &[u8]) -> Option<(&[u8], &[u8])>
    ensures { option_map (λ names. (names.0.now, names.1.now)) result ≡ two_of (slice_split is_dot text.now) }
{
    let (first, rest) = cut(text)?;
    match cut(rest) {
        Some(_) => None,
        None => Some((first, rest)),
    }
}

// The text before the first dot and the text after it.
fn cut(text: &[u8]) -> Option<(&[u8], &[u8])>
    ensures { MatchOption result
        (slice_split is_dot text.now ≡ text.now ∷ [])
        (λ parts. slice_split is_dot text.now ≡ parts.0.now ∷ slice_split is_dot parts.1.now) }
{
    match place_of(text) {
        Some(place) => Some((&text[..place], &text[place + 1..])),
        None => None,
    }
}

// The place of the first dot.
fn place_of(text: &[u8]) -> Option<usize>
    ensures exact { result ≡ position is_dot text.now }
    ensures within { IfSome result (λ place. place < length text.now) }
{
    text.iter().position(|byte| *byte == b'.')
}
