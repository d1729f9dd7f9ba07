// The trees and the faults of queries, by hand.
use super::*;
use gr_ast::{Ast, FieldOp, Join, Seek};
use gr_base::{Bytes, Cmp, Failure, NoMemory};
use std::alloc::Global;
use std::fmt::Write;
use std::test::Fail;

/// A query, and its tree or its fault as `push_tree` and `shown` write them.
struct Case(&'static str, &'static str);

const TREES: [Case; 40] = [
    Case("a", "0a"),
    Case("a OR b c", "0[0a |5b &7c]"),
    Case("a b OR c", "0[0a &2b |7c]"),
    Case("a - b", "0[0a -4b]"),
    Case("-a b", "0[0All -1a &3b]"),
    Case("+a b", "0[1a &3b]"),
    Case("(+a) b", "1[2a &5b]"),
    Case("+a", "1a"),
    Case("-a", "0[0All -1a]"),
    Case("((a b)) c", "2[2[2a &4b] &8c]"),
    Case("a (b OR c)", "0[0a &3[3b |8c]]"),
    Case("a\"b\"(c)", "0[0a &1b &5c]"),
    Case("a+b c-d", "0[0a+b &4c-d]"),
    Case("OR*", "0OR~"),
    Case("OR:x", "0OR=x"),
    Case("\\OR", "0OR"),
    Case("OROR", "0OROR"),
    Case("**", "0*~"),
    Case("a*b", "0a*b"),
    Case("ab*", "0ab~"),
    Case("\"a*\"", "0a*"),
    Case("a\\*", "0a*"),
    Case("\\**", "0*~"),
    Case("n:>=1", "0n>=1"),
    Case("n:==1", "0n===1"),
    Case("n:\"a b\"", "0n=a b"),
    Case("n:<1 n:<=2", "0[0n<1 &5n<=2]"),
    Case("n:!=5", "0n!=5"),
    Case("n:>1", "0n>1"),
    Case("a.b:@x*", "0a.b@x*"),
    Case("n:^x n:$y", "0[0n^x &5n$y]"),
    Case("true:-5", "0true=-5"),
    Case("n:a\\ b:c", "0n=a b:c"),
    Case("a\\:b:c", "0a:b:c"),
    Case("1:x", "01:x"),
    Case("n:\"\"", "0n="),
    Case("\"\"", "0"),
    Case(" \t(\r\na )", "5a"),
    Case("é\\é", "0éé"),
    Case("n:\\>5", "0n=>5"),
];

const FAULTS: [Case; 24] = [
    Case("", "BadQuery at 0"),
    Case("()", "BadQuery at 1"),
    Case("a -", "BadQuery at 3"),
    Case("a OR", "BadQuery at 4"),
    Case("OR a", "BadQuery at 0"),
    Case("*", "BadQuery at 0"),
    Case("a *", "BadQuery at 2"),
    Case("n:", "BadQuery at 0"),
    Case("a n:>", "BadQuery at 2"),
    Case("n:\"ab", "BadQuery at 0"),
    Case("n:\\", "BadQuery at 0"),
    Case("a\\", "BadQuery at 1"),
    Case("\\", "BadQuery at 0"),
    Case("\"abc", "BadQuery at 0"),
    Case("(a", "BadQuery at 2"),
    Case("a)", "BadQuery at 1"),
    Case("+-a", "BadQuery at 1"),
    Case("a OR OR b", "BadQuery at 5"),
    Case("a OR -b", "BadQuery at 5"),
    Case("+OR", "BadQuery at 1"),
    Case("n:(x", "BadQuery at 0"),
    Case("n: x", "BadQuery at 0"),
    Case("(OR)", "BadQuery at 1"),
    Case("a*\\", "BadQuery at 2"),
];

fn push_bytes(shown: &mut String, bytes: &Bytes) -> Result<(), NoMemory> {
    match str::from_utf8(bytes.as_slice()) {
        Ok(text) => shown.push_str(text)?,
        Err(_) => shown.push_str("no text")?,
    }
    Ok(())
}

fn test_mark(test: FieldOp) -> &'static str {
    match test {
        FieldOp::Compare(Cmp::Eq) => "=",
        FieldOp::Compare(Cmp::Ne) => "!",
        FieldOp::Compare(Cmp::Lt) => "<",
        FieldOp::Compare(Cmp::Le) => "<=",
        FieldOp::Compare(Cmp::Gt) => ">",
        FieldOp::Compare(Cmp::Ge) => ">=",
        FieldOp::Find(Seek::Match) => "@",
        FieldOp::Find(Seek::Prefix) => "^",
        FieldOp::Find(Seek::Suffix) => "$",
    }
}

fn join_mark(join: Join) -> &'static str {
    match join {
        Join::And => " &",
        Join::Or => " |",
        Join::Without => " -",
    }
}

/// A leaf: its place and what stands there.
fn push_leaf(shown: &mut String, tree: &Ast) -> Result<(), NoMemory> {
    match tree {
        Ast::All { at } => write!(shown, "{at}All")?,
        Ast::Word { at, seek, text } => {
            write!(shown, "{at}")?;
            push_bytes(shown, text)?;
            if *seek == Seek::Prefix {
                shown.push_str("~")?;
            }
        }
        Ast::FieldTest {
            at,
            path,
            test,
            text,
        } => {
            write!(shown, "{at}")?;
            push_bytes(shown, path)?;
            shown.push_str(test_mark(*test))?;
            push_bytes(shown, text)?;
        }
        _ => shown.push_str("?")?,
    }
    Ok(())
}

/// A chain's place and its parts in brackets, so many levels deep at most.
fn push_tree(shown: &mut String, tree: &Ast, depth: u8) -> Result<(), NoMemory> {
    let Ast::Chain { at, first, rest } = tree else {
        return push_leaf(shown, tree);
    };
    if depth == 0 {
        return Ok(());
    }
    write!(shown, "{at}[")?;
    push_tree(shown, first.get(), depth - 1)?;
    for link in rest.as_slice() {
        shown.push_str(join_mark(link.join))?;
        push_tree(shown, &link.of, depth - 1)?;
    }
    shown.push_str("]")?;
    Ok(())
}

/// The tree or the fault of a text.
fn shown(alloc: Global, text: &str) -> Result<String, NoMemory> {
    let mut shown = String::new(alloc);
    match parse(alloc, text) {
        Ok(tree) => push_tree(&mut shown, &tree, 4)?,
        Err(Failure::Refused(refusal)) => write!(shown, "{refusal}")?,
        Err(Failure::NoMemory) => return Err(NoMemory),
    }
    Ok(shown)
}

fn is_shown(alloc: Global, case: &Case) -> Result<bool, NoMemory> {
    Ok(shown(alloc, case.0)?.as_str() == case.1)
}

#[test]
fn a_query_has_one_chain_from_left_to_right(rt: HostRuntime) -> Result<(), Fail> {
    for case in &TREES {
        assert!(rt; is_shown(rt.alloc(), case)?, "{}", case.0);
    }
    Ok(())
}

#[test]
fn a_text_is_refused_at_its_first_wrong_place(rt: HostRuntime) -> Result<(), Fail> {
    for case in &FAULTS {
        assert!(rt; is_shown(rt.alloc(), case)?, "{}", case.0);
    }
    Ok(())
}

/// So many brackets round a word.
fn nested(alloc: Global, levels: usize) -> Result<String, NoMemory> {
    let mut text = String::new(alloc);
    for _ in 0..levels {
        text.push_str("(")?;
    }
    text.push_str("a")?;
    for _ in 0..levels {
        text.push_str(")")?;
    }
    Ok(text)
}

#[test]
fn sixty_four_brackets_are_not_too_many(rt: HostRuntime) -> Result<(), Fail> {
    let alloc = rt.alloc();
    let most = nested(alloc, 64)?;
    assert_eq!(rt; shown(alloc, most.as_str())?.as_str(), "64a");
    let more = nested(alloc, 65)?;
    assert_eq!(rt; shown(alloc, more.as_str())?.as_str(), "TooDeep at 64");
    Ok(())
}

fn push_times(text: &mut String, part: &str, count: usize) -> Result<(), NoMemory> {
    for _ in 0..count {
        text.push_str(part)?;
    }
    Ok(())
}

/// A text of 10,000 characters between two others.
fn push_long(text: &mut String, before: &str, after: &str) -> Result<(), NoMemory> {
    text.push_str(before)?;
    push_times(text, "x", 10_000)?;
    text.push_str(after)?;
    Ok(())
}

/// More than 100 KB: each kind of token with a long text, and then 8,000 words in brackets.
fn long_query(alloc: Global) -> Result<String, NoMemory> {
    let mut text = String::new(alloc);
    push_long(&mut text, "\"", "\" ")?;
    push_long(&mut text, "", " ")?;
    push_long(&mut text, "", "* ")?;
    push_long(&mut text, "\\y", " ")?;
    push_long(&mut text, "\\y", "* ")?;
    push_long(&mut text, "n:\"", "\" ")?;
    push_long(&mut text, "n:", " ")?;
    push_long(&mut text, "n:\\y", "")?;
    push_times(&mut text, " (a)", 8_000)?;
    Ok(text)
}

/// How many units a query has behind its first one.
fn further_units(alloc: Global, text: &str) -> usize {
    match parse(alloc, text) {
        Ok(Ast::Chain { rest, .. }) => rest.len(),
        _ => 0,
    }
}

#[test]
fn a_query_of_100_kb_has_its_tree(rt: HostRuntime) -> Result<(), Fail> {
    let text = long_query(rt.alloc())?;
    assert_eq!(rt; further_units(rt.alloc(), text.as_str()), 8_007);
    Ok(())
}
