// The tokens of scripts, by hand.
use super::*;
use gr_text::{Found, Lexer};
use std::fmt::Write;
use std::test::Fail;

/// A script, and its tokens: each place, a colon and what stands there, with a space behind it.
struct Case(&'static str, &'static str);

const CASES: [Case; 22] = [
    Case("", ""),
    Case(" \t\r\n", ""),
    Case("a.b1._c", "0:a.b1._c "),
    Case("a.", "0:a 1:? "),
    Case("a..b", "0:a 1:? "),
    Case("true.x false", "0:true.x 7:false "),
    Case("5n", "0:? "),
    Case("5_", "0:? "),
    Case("5 n", "0:5 2:n "),
    Case("5é", "0:5 1:? "),
    Case("aé", "0:a 1:? "),
    Case("007", "0:7 "),
    Case(
        "18446744073709551616 18446744073709551615",
        "0:big 21:18446744073709551615 ",
    ),
    Case("\"a\\\"b\"c", "0:\"a\"b\" 6:c "),
    Case("\"\\é\"\"\"", "0:\"é\" 5:\"\" "),
    Case("a \"b", "0:a 2:? "),
    Case("a\"b\\", "0:a 1:? "),
    Case("(),||&&&!", "0:Open 1:Close 2:Comma 3:Or 5:And 7:Without "),
    Case("==!=<<=>>=", "0:Eq 2:Ne 4:Lt 5:Le 7:Gt 8:Ge "),
    Case(
        "@@^@$+-*/%!",
        "0:Match 1:Prefix 3:Suffix 5:Plus 6:Minus 7:Star 8:Slash 9:Percent 10:Not ",
    ),
    Case("a&b", "0:a 1:? "),
    Case("a=1|", "0:a 1:? "),
];

fn push_bytes(shown: &mut String, bytes: &Bytes) -> Result<(), NoMemory> {
    match str::from_utf8(bytes.as_slice()) {
        Ok(text) => shown.push_str(text)?,
        Err(_) => shown.push_str("no text")?,
    }
    Ok(())
}

fn push_token(shown: &mut String, token: &Token) -> Result<(), NoMemory> {
    match token {
        Token::Symbol(symbol) => write!(shown, "{symbol:?}")?,
        Token::Digits(Some(number)) => write!(shown, "{number}")?,
        Token::Digits(None) => shown.push_str("big")?,
        Token::Text(text) => {
            shown.push_str("\"")?;
            push_bytes(shown, text)?;
            shown.push_str("\"")?;
        }
        Token::Path(path) => push_bytes(shown, path)?,
    }
    Ok(())
}

/// Shows what stands next. Whether there is more.
fn push_found(shown: &mut String, found: &Found<Token>) -> Result<bool, NoMemory> {
    match found {
        Found::Lexeme(lexeme) => {
            let at = lexeme.at;
            write!(shown, "{at}:")?;
            push_token(shown, &lexeme.token)?;
            shown.push_str(" ")?;
            Ok(true)
        }
        Found::Stranger(at) => {
            write!(shown, "{at}:? ")?;
            Ok(false)
        }
        Found::End => Ok(false),
    }
}

fn shown(alloc: Global, script: &str) -> Result<String, NoMemory> {
    let mut lexer = Lexer::<Token>::new(script);
    let mut shown = String::new(alloc);
    for _ in script.bytes() {
        if !push_found(&mut shown, &lexer.next(alloc)?)? {
            break;
        }
    }
    Ok(shown)
}

#[test]
fn scripts_are_cut_into_tokens(rt: HostRuntime) -> Result<(), Fail> {
    for case in &CASES {
        assert_eq!(rt; shown(rt.alloc(), case.0)?.as_str(), case.1);
    }
    Ok(())
}

#[test]
fn the_end_comes_again(rt: HostRuntime) -> Result<(), Fail> {
    let mut lexer = Lexer::<Token>::new("a ");
    assert!(rt; matches!(lexer.next(rt.alloc())?, Found::Lexeme(_)));
    assert!(rt; matches!(lexer.next(rt.alloc())?, Found::End));
    assert!(rt; matches!(lexer.next(rt.alloc())?, Found::End));
    Ok(())
}
