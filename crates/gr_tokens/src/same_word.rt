// The first words of two texts, if they are the same and short, in one pass over both.
ghost use Rattle.std.specs.Prelude.{◌≡◌, ◌∷◌, ℕ, List, IfSome};
ghost use Rattle.gr_tokens.specs.Inside.Same.{IsSameEnd};
ghost use Rattle.gr_tokens.specs.Tokens.{words};

use super::delimit::SHORT_WORD;

/// The texts after their first words, if these are the same and short and begin the texts.
pub(crate) fn after_same_word<'t, 'p>(text: &'t str, phrase: &'p str) -> Option<(&'t str, &'p str)>
    ensures { IfSome result (λ after. (word : List ℕ) × (words text.now ≡ word ∷ words after.0.now) × (words phrase.now ≡ word ∷ words after.1.now)) }
{
    let end = same_end(text.as_bytes(), phrase.as_bytes())?;
    Some((&text[end + 1..], &phrase[end + 1..]))
}

// Where both have a space after the same bytes.
fn same_end(text: &[u8], phrase: &[u8]) -> Option<usize>
    ensures { IfSome result (λ end. IsSameEnd text.now phrase.now end) }
{
    for at in 0..text.len().min(phrase.len()).min(SHORT_WORD) {
        if text[at] != phrase[at] {
            return None;
        }
        if text[at] == b' ' {
            return if at > 0 { Some(at) } else { None };
        }
    }
    None
}
