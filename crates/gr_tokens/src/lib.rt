// How texts are cut into tokens, and how often a phrase stands in a text.
#![tactic(auto)]

mod alone_places;
mod bigram;
mod character_places;
mod count;
mod delimit;
mod overlap;
mod periods;
mod phrase;
mod phrase_periods;
mod plain;
mod plain_places;
mod same_word;
#[cfg(test)]
mod tests;
mod tokenizer;
mod word_match;
mod word_places;

pub use bigram::Bigram;
pub use delimit::Delimit;
pub use phrase::{How, phrase_places};
pub use tokenizer::Tokenizer;
