// Texts without the blanks at their ends.
ghost use Rattle.std.specs.Prelude.{◌≡◌, ◌∷◌, ◌++◌, [], true, false, ℕ, List, MatchOption};
ghost use Rattle.gr_base.specs.Text.{is_blank};
ghost use Rattle.gr_rows.specs.Names.{from_first, trimmed, up_to_last};

/// A text without the spaces and tabs at its ends.
pub(crate) fn trimmed(text: &str) -> &str
    ensures { result.now ≡ trimmed text.now }
{
    from_first(up_to_last(text))
}

// A text from its first byte that is no blank.
fn from_first(text: &str) -> &str
    ensures { result.now ≡ from_first text.now }
{
    let mut rest = text;
    'blanks: while let Some(others) = after_blank(rest) {
        rest = others;
    }
    rest
}

// A text up to its last byte that is no blank.
fn up_to_last(text: &str) -> &str
    ensures { result.now ≡ up_to_last text.now }
{
    let mut rest = text;
    'blanks: while let Some(others) = before_blank(rest) {
        rest = others;
    }
    rest
}

// The text after the blank that it begins with.
fn after_blank(text: &str) -> Option<&str>
    ensures { MatchOption result
        ((c : ℕ) (rest : List ℕ) → text.now ≡ c ∷ rest → is_blank c ≡ false)
        (λ rest. (c : ℕ) × (text.now ≡ c ∷ rest.now) × (is_blank c ≡ true)) }
{
    match text.strip_prefix(' ') {
        Some(rest) => Some(rest),
        None => text.strip_prefix('\t'),
    }
}

// The text before the blank that it ends with.
fn before_blank(text: &str) -> Option<&str>
    ensures { MatchOption result
        ((c : ℕ) (front : List ℕ) → text.now ≡ front ++ c ∷ [] → is_blank c ≡ false)
        (λ front. (c : ℕ) × (text.now ≡ front.now ++ c ∷ []) × (is_blank c ≡ true)) }
{
    match text.strip_suffix(' ') {
        Some(front) => Some(front),
        None => text.strip_suffix('\t'),
    }
}
