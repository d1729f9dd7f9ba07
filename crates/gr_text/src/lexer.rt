// Cuts a text into tokens, from the left.
ghost use Rattle.std.specs.Prelude.{◌≡◌, ◌+◌, ◌≤◌, ℕ, List, Option, IfOk, IfSome, IsUtf8, OnErr, OnOk, drop, length};
ghost use Rattle.gr_text.specs.Cut.{cut, cut_from};
ghost use Rattle.gr_text.specs.Lexing.{Finds, IsHeld, IsReadable, behind, found_in, left_of};

use crate::white_space::white_space_len;
use gr_base::NoMemory;
use std::alloc::Global;
use std::marker::{Model, PhantomData};

/// What a text is cut into.
pub trait Token: Drop + Sized {
    /// The token that some bytes begin with, as long as it goes, and how many bytes it has.
    ghost starts: { List ℕ → Option (Self × ℕ) };

    /// The texts that the token holds are UTF-8.
    ghost IsText: { Self → Type 0 };

    /// The token that the bytes begin with, and how many bytes it has, where there is one.
    fn token_at(alloc: Global, bytes: &[u8]) -> Result<Option<(Self, usize)>, NoMemory>
        requires { IsUtf8 bytes.now }
        ensures exact { IfOk result (λ found. found ≡ starts bytes.now) }
        ensures held { IfOk result (λ found. IfSome found (IsHeld IsText bytes.now)) };
}

/// A token at its byte place.
#[derive(Drop)]
pub struct Lexeme<T> {
    /// The place of its first byte, counted from 0.
    pub at: u64,
    /// The token.
    pub token: T,
}

/// What stands next in a text.
#[derive(Drop)]
pub enum Found<T> {
    /// A token.
    Lexeme(Lexeme<T>),
    /// The place of a character that is no white space and begins no token.
    Stranger(u64),
    /// The end of the text.
    End,
}

/// Reads a text's tokens, one after another. Its value is the place that it has come to, and the bytes from there on.
#[derive(Drop)]
pub struct Lexer<'a, T> {
    at: u64,
    rest: &'a [u8],
    tokens: PhantomData<T>,
}

impl<'a, T> Model for Lexer<'a, T> {
    ghost use Rattle.std.specs.Prelude.{ℕ, List};
    ghost use Rattle.gr_text.specs.Lexing.{IsReadable};

    ghost Value = { ℕ × List ℕ };

    ghost view = { λ lexer. (lexer.at, lexer.rest.now) };

    ghost invariant = { λ lexer. IsReadable lexer.at lexer.rest.now };
}

impl<'a, T: Token> Lexer<'a, T> {
    /// All of a text is to be read.
    pub fn new(text: &'a str) -> Lexer<'a, T>
        ensures { left_of T.starts result ≡ cut T.starts text.now }
    {
        Lexer {
            at: 0,
            rest: text.as_bytes(),
            tokens: PhantomData,
        }
    }

    /// The next token, the place where none begins, or the end. After either of these two the same comes again.
    pub fn next(&mut self, alloc: Global) -> Result<Found<T>, NoMemory>
        ensures found { IfOk result (λ found. found ≡ found_in (left_of T.starts self.old)) }
        ensures left { OnOk result (left_of T.starts self.new ≡ behind (left_of T.starts self.old)) }
        ensures same { OnErr result (self.new ≡ self.old) }
        ensures text { IfOk result (Finds T.IsText) }
    {
        let (found, len) = next_found(alloc, self.at, self.rest)?;
        self.rest = self.rest.split_at(len).1;
        self.at += len as u64;
        Ok(found)
    }
}

/// What stands next, and how many bytes it takes with the white space before it.
fn next_found<T: Token>(alloc: Global, at: u64, bytes: &[u8]) -> Result<(Found<T>, usize), NoMemory>
    requires { IsReadable at bytes.now }
    ensures found { IfOk result (λ next. next.0 ≡ found_in (cut_from T.starts at 0 bytes.now)) }
    ensures left { IfOk result (λ next. cut_from T.starts (at + next.1) 0 (drop next.1 bytes.now) ≡ behind (cut_from T.starts at 0 bytes.now)) }
    ensures within { IfOk result (λ next. next.1 ≤ length bytes.now) }
    ensures text { IfOk result (λ next. Finds T.IsText next.0) }
    ensures rest { IfOk result (λ next. IsReadable (at + next.1) (drop next.1 bytes.now)) }
{
    let blanks = white_space_len(bytes);
    let rest = bytes.split_at(blanks).1;
    let at = at + blanks as u64;
    if rest.is_empty() {
        return Ok((Found::End, blanks));
    }
    match T::token_at(alloc, rest)? {
        Some((token, len)) => Ok((Found::Lexeme(Lexeme { at, token }), blanks + len)),
        None => Ok((Found::Stranger(at), blanks)),
    }
}
