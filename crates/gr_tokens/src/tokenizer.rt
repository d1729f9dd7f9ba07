// The ways of cutting a text into tokens.

/// A way of cutting a text into tokens.
#[derive(Clone, Copy, Debug, PartialEq, Eq)]
pub enum Tokenizer {
    /// At spaces, into words.
    Delimit,
    /// At each character, into that character and the next one.
    Bigram,
}
