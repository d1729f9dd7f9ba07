// Texts without the white space at their ends.
ghost use Rattle.std.specs.Prelude.{◌≡◌, ◌≢◌, ◌∷◌, ◌++◌, [], ℕ, List};
ghost use Rattle.gr_print.specs.Columns.{from_first, trimmed, up_to_last};
ghost use Rattle.gr_print.specs.Inside.Ends.{IsAfterWhite, IsBeforeWhite};

/// A text without the white space at its ends.
pub fn trimmed(text: &str) -> &str
    ensures { result.now ≡ trimmed text.now }
{
    from_first(up_to_last(text))
}

// A text from its first byte that is no white space.
fn from_first(text: &str) -> &str
    ensures { result.now ≡ from_first text.now }
{
    let mut rest = text;
    'white: while let Some(others) = after_white(rest) {
        rest = others;
    }
    rest
}

// A text up to its last byte that is no white space.
fn up_to_last(text: &str) -> &str
    ensures { result.now ≡ up_to_last text.now }
{
    let mut rest = text;
    'white: while let Some(others) = before_white(rest) {
        rest = others;
    }
    rest
}

// The text after the white space byte that it begins with.
fn after_white(text: &str) -> Option<&str>
    ensures { IsAfterWhite text.now result }
{
    match text.strip_prefix(' ') {
        Some(rest) => Some(rest),
        None => after_control(text),
    }
}

// The text after the white space byte that it begins with, where that is no space.
fn after_control(text: &str) -> Option<&str>
    requires { (rest : List ℕ) → text.now ≢ 32 ∷ rest }
    ensures { IsAfterWhite text.now result }
{
    if let Some(rest) = text.strip_prefix('\t') {
        return Some(rest);
    }
    match text.strip_prefix('\n') {
        Some(rest) => Some(rest),
        None => text.strip_prefix('\r'),
    }
}

// The text before the white space byte that it ends with.
fn before_white(text: &str) -> Option<&str>
    ensures { IsBeforeWhite text.now result }
{
    match text.strip_suffix(' ') {
        Some(front) => Some(front),
        None => before_control(text),
    }
}

// The text before the white space byte that it ends with, where that is no space.
fn before_control(text: &str) -> Option<&str>
    requires { (front : List ℕ) → text.now ≢ front ++ 32 ∷ [] }
    ensures { IsBeforeWhite text.now result }
{
    if let Some(front) = text.strip_suffix('\t') {
        return Some(front);
    }
    match text.strip_suffix('\n') {
        Some(front) => Some(front),
        None => text.strip_suffix('\r'),
    }
}
