// What texts of queries and scripts share: white space, strings, paths, numbers, and the fault of a text.
#![tactic(auto)]

mod digits;
mod fault;
mod lexer;
mod paths;
mod reader;
mod stop;
mod strings;
#[cfg(test)]
mod tests;
mod white_space;

pub use digits::{digits_len, number_from};
pub use fault::{TextFault, TextRefusal};
pub use lexer::{Found, Lexeme, Lexer, Token};
pub use paths::{is_name_start, path_len};
pub use reader::{Reader, read};
pub use stop::Stop;
pub use strings::string_from;
pub use white_space::{is_white_space, white_space_len};
