// Scripts and match columns, by hand.
use super::*;
use gr_ast::{Arith, Ast, Combined, Join, Joined, Seek};
use gr_base::{Cmp, Failure, NoMemory};
use gr_text::{TextFault, TextRefusal};
use std::alloc::Global;
use std::fmt::Write;
use std::test::Fail;

/// A text, and its answer: its tree from the top, each node with its place, or the fault and its place.
struct Case(&'static str, &'static str);

const OPERATORS: [Case; 34] = [
    Case("a", "a@0"),
    Case("12", "12@0"),
    Case("\"a\\\"b\"", "'a\"b'@0"),
    Case("true", "true@0"),
    Case("false", "false@0"),
    Case("a || b", "[||]@0 a@0 b@5"),
    Case("a && b", "[&&]@0 a@0 b@5"),
    Case("a &! b", "[&!]@0 a@0 b@5"),
    Case("a == b", "==@0 a@0 b@5"),
    Case("a!=b", "!=@0 a@0 b@3"),
    Case("a<b", "<@0 a@0 b@2"),
    Case("a<=b", "<=@0 a@0 b@3"),
    Case("a>b", ">@0 a@0 b@2"),
    Case("a>=b", ">=@0 a@0 b@3"),
    Case("a @ \"x\"", "find@0 a@0 'x'@4"),
    Case("a @^ \"x\"", "find^@0 a@0 'x'@5"),
    Case("a@$\"x\"", "find$@0 a@0 'x'@3"),
    Case("a + b", "[+]@0 a@0 b@4"),
    Case("a - b", "[-]@0 a@0 b@4"),
    Case("a * b", "[*]@0 a@0 b@4"),
    Case("a / b", "[/]@0 a@0 b@4"),
    Case("a % b", "[%]@0 a@0 b@4"),
    Case("!a", "!@0 a@1"),
    Case("-a", "-@0 a@1"),
    Case(
        "between(n,1,\"include\",9,\"exclude\")",
        "between5@0 n@8 1@10 'include'@12 9@22 'exclude'@24",
    ),
    Case("in_values(n, 1)", "in_values2@0 n@10 1@13"),
    Case("in_values(n,1,2,3)", "in_values4@0 n@10 1@12 2@14 3@16"),
    Case("a || b && c", "[||]@0 a@0 [&&]@5 b@5 c@10"),
    Case("a && b == c", "[&&]@0 a@0 ==@5 b@5 c@10"),
    Case("a == b + c", "==@0 a@0 [+]@5 b@5 c@9"),
    Case("a + b * c", "[+]@0 a@0 [*]@4 b@4 c@8"),
    Case("a * -b", "[*]@0 a@0 -@4 b@5"),
    Case("!a == b", "==@0 !@0 a@1 b@6"),
    Case("-!a", "-@0 !@1 a@2"),
];

const CHAINS: [Case; 14] = [
    Case("a || b || c", "[||||]@0 a@0 b@5 c@10"),
    Case("a && b &! c && d", "[&&&!&&]@0 a@0 b@5 c@10 d@15"),
    Case("a - b - c", "[--]@0 a@0 b@4 c@8"),
    Case("a * b / c % d", "[*/%]@0 a@0 b@4 c@8 d@12"),
    Case("a + (b - c)", "[+]@0 a@0 [-]@5 b@5 c@9"),
    Case("(a + b) - c", "[-]@1 [+]@1 a@1 b@5 c@10"),
    Case("(a || b) || c", "[||]@1 [||]@1 a@1 b@6 c@12"),
    Case("a || (b || c)", "[||]@0 a@0 [||]@6 b@6 c@11"),
    Case("((a))", "a@2"),
    Case("(a == b) == c", "==@1 ==@1 a@1 b@6 c@12"),
    Case("a == b && c == d", "[&&]@0 ==@0 a@0 b@5 ==@10 c@10 d@15"),
    Case("a + b < c - d", "<@0 [+]@0 a@0 b@4 [-]@8 c@8 d@12"),
    Case("\t( a )\r\n", "a@3"),
    Case("a && (b || c) && d", "[&&&&]@0 a@0 [||]@6 b@6 c@11 d@17"),
];

const FAULTS: [Case; 42] = [
    Case("", "BadScript 0"),
    Case("   ", "BadScript 3"),
    Case("a b", "BadScript 2"),
    Case("a &&", "BadScript 4"),
    Case("&& a", "BadScript 0"),
    Case("a & b", "BadScript 2"),
    Case("a | b", "BadScript 2"),
    Case("a = b", "BadScript 2"),
    Case("a # b", "BadScript 2"),
    Case("a < = b", "BadScript 4"),
    Case("a @ ^\"x\"", "BadScript 4"),
    Case("a!b", "BadScript 1"),
    Case("!=a", "BadScript 0"),
    Case("(a", "BadScript 2"),
    Case("a)", "BadScript 1"),
    Case("()", "BadScript 1"),
    Case("a,b", "BadScript 1"),
    Case("a == b == c", "BadScript 7"),
    Case("a < b @ c", "BadScript 6"),
    Case("a == b + c != d", "BadScript 11"),
    Case("between", "BadScript 7"),
    Case("between a", "BadScript 8"),
    Case("between(a,1)", "BadScript 11"),
    Case("between(a,1,\"include\",2,\"include\",3)", "BadScript 33"),
    Case("between(a,1,\"include\",2)", "BadScript 23"),
    Case("in_values()", "BadScript 10"),
    Case("in_values(a)", "BadScript 11"),
    Case("in_values(a,)", "BadScript 12"),
    Case("in_values(a,1", "BadScript 13"),
    Case("\"abc", "BadScript 0"),
    Case("a == \"x", "BadScript 5"),
    Case("a\\", "BadScript 1"),
    Case("1é", "BadScript 1"),
    Case("aé", "BadScript 1"),
    Case("5n", "BadScript 0"),
    Case("a == 5_", "BadScript 5"),
    Case("a.", "BadScript 1"),
    Case("true.x", "true.x@0"),
    Case("x.true", "x.true@0"),
    Case("between.a", "between.a@0"),
    Case("in_values.a && false", "[&&]@0 in_values.a@0 false@15"),
    Case("a\u{b}", "BadScript 1"),
];

const NUMBERS: [Case; 8] = [
    Case("18446744073709551615", "18446744073709551615@0"),
    Case("18446744073709551616", "BadNumber 0"),
    Case("zz == 18446744073709551616", "BadNumber 6"),
    Case("99999999999999999999999999999999 || a", "BadNumber 0"),
    Case(
        "1 + 18446744073709551616 + 99999999999999999999",
        "BadNumber 4",
    ),
    Case("(18446744073709551616", "BadScript 21"),
    Case("18446744073709551616 #", "BadScript 21"),
    Case("00018446744073709551615", "18446744073709551615@0"),
];

/// The tree from the top, or the fault.
fn answer(alloc: Global, text: &str) -> Result<String, NoMemory> {
    match parse(alloc, text) {
        Ok(tree) => outline(alloc, &tree),
        Err(fault) => fault_text(alloc, fault),
    }
}

fn fault_text(alloc: Global, fault: TextFault) -> Result<String, NoMemory> {
    let mut text = String::new(alloc);
    match fault {
        Failure::Refused(TextRefusal { kind, at }) => {
            let name = kind.name();
            write!(text, "{name} {at}")?;
        }
        Failure::NoMemory => text.push_str("no memory")?,
    }
    Ok(text)
}

/// The nodes of a tree, each before those below it.
fn outline(alloc: Global, tree: &Ast) -> Result<String, NoMemory> {
    let mut text = String::new(alloc);
    let mut rest = Vec::new(alloc);
    rest.push(tree)?;
    for _ in 0..200 {
        let Some(next) = rest.pop() else { break };
        if !text.is_empty() {
            text.push(' ')?;
        }
        push_node(&mut text, next)?;
        push_below(&mut rest, next)?;
    }
    Ok(text)
}

/// What stands right below a node, the first on top.
fn push_below<'a>(rest: &mut Vec<&'a Ast>, tree: &'a Ast) -> Result<(), NoMemory> {
    match tree {
        Ast::Chain {
            first,
            rest: links,
            ..
        } => {
            for link in links.as_slice().iter().rev() {
                rest.push(&link.of)?;
            }
            rest.push(first.get())?;
        }
        Ast::Calc {
            first,
            rest: terms,
            ..
        } => {
            for term in terms.as_slice().iter().rev() {
                rest.push(&term.of)?;
            }
            rest.push(first.get())?;
        }
        Ast::Not { of, .. } => rest.push(of.get())?,
        Ast::Minus { of, .. } => rest.push(of.get())?,
        Ast::Compare { left, right, .. } => push_both(rest, left.get(), right.get())?,
        Ast::Find { left, right, .. } => push_both(rest, left.get(), right.get())?,
        Ast::Between { args, .. } => push_all(rest, args.as_slice())?,
        Ast::InValues { args, .. } => push_all(rest, args.as_slice())?,
        _ => {}
    }
    Ok(())
}

fn push_both<'a>(rest: &mut Vec<&'a Ast>, left: &'a Ast, right: &'a Ast) -> Result<(), NoMemory> {
    rest.push(right)?;
    rest.push(left)?;
    Ok(())
}

fn push_all<'a>(rest: &mut Vec<&'a Ast>, trees: &'a [Ast]) -> Result<(), NoMemory> {
    for tree in trees.iter().rev() {
        rest.push(tree)?;
    }
    Ok(())
}

/// A node without what is below it, and its place.
fn push_node(text: &mut String, tree: &Ast) -> Result<(), NoMemory> {
    match tree {
        Ast::Chain { at, rest, .. } => push_chain(text, rest.as_slice(), *at),
        Ast::Calc { at, rest, .. } => push_calc(text, rest.as_slice(), *at),
        Ast::Not { at, .. } => push_at(text, "!", *at),
        Ast::Minus { at, .. } => push_at(text, "-", *at),
        Ast::Compare { at, cmp, .. } => push_at(text, sign_of_cmp(*cmp), *at),
        Ast::Find { at, seek, .. } => push_at(text, sign_of_seek(*seek), *at),
        Ast::Between { at, args } => push_call(text, "between", args.len(), *at),
        Ast::InValues { at, args } => push_call(text, "in_values", args.len(), *at),
        Ast::Path { at, text: path } => push_at(text, readable(path.as_slice()), *at),
        Ast::Number { at, value } => push_number(text, *value, *at),
        Ast::Text { at, bytes } => push_text(text, readable(bytes.as_slice()), *at),
        Ast::Truth { at, value: true } => push_at(text, "true", *at),
        Ast::Truth { at, value: false } => push_at(text, "false", *at),
        _ => push_at(text, "?", 0),
    }
}

fn push_at(text: &mut String, word: &str, at: u64) -> Result<(), NoMemory> {
    write!(text, "{word}@{at}")?;
    Ok(())
}

fn push_number(text: &mut String, value: u64, at: u64) -> Result<(), NoMemory> {
    write!(text, "{value}@{at}")?;
    Ok(())
}

fn push_text(text: &mut String, word: &str, at: u64) -> Result<(), NoMemory> {
    write!(text, "'{word}'@{at}")?;
    Ok(())
}

fn push_call(text: &mut String, word: &str, count: usize, at: u64) -> Result<(), NoMemory> {
    write!(text, "{word}{count}@{at}")?;
    Ok(())
}

fn push_chain(text: &mut String, links: &[Joined], at: u64) -> Result<(), NoMemory> {
    text.push('[')?;
    for link in links {
        text.push_str(sign_of_join(link.join))?;
    }
    push_at(text, "]", at)
}

fn push_calc(text: &mut String, terms: &[Combined], at: u64) -> Result<(), NoMemory> {
    text.push('[')?;
    for term in terms {
        text.push_str(sign_of_arith(term.arith))?;
    }
    push_at(text, "]", at)
}

fn sign_of_join(join: Join) -> &'static str {
    match join {
        Join::And => "&&",
        Join::Or => "||",
        Join::Without => "&!",
    }
}

fn sign_of_arith(arith: Arith) -> &'static str {
    match arith {
        Arith::Add => "+",
        Arith::Sub => "-",
        Arith::Mul => "*",
        Arith::Div => "/",
        Arith::Rem => "%",
    }
}

fn sign_of_cmp(cmp: Cmp) -> &'static str {
    match cmp {
        Cmp::Eq => "==",
        Cmp::Ne => "!=",
        Cmp::Lt => "<",
        Cmp::Le => "<=",
        Cmp::Gt => ">",
        Cmp::Ge => ">=",
    }
}

fn sign_of_seek(seek: Seek) -> &'static str {
    match seek {
        Seek::Match => "find",
        Seek::Prefix => "find^",
        Seek::Suffix => "find$",
    }
}

fn readable(bytes: &[u8]) -> &str {
    match str::from_utf8(bytes) {
        Ok(text) => text,
        Err(_) => "?",
    }
}

#[test]
fn each_operator_binds_as_the_grammar_has_it(rt: HostRuntime) -> Result<(), Fail> {
    for case in &OPERATORS {
        assert_eq!(rt; answer(rt.alloc(), case.0)?.as_str(), case.1, "{}", case.0);
    }
    Ok(())
}

#[test]
fn a_chain_joins_from_left_to_right(rt: HostRuntime) -> Result<(), Fail> {
    for case in &CHAINS {
        assert_eq!(rt; answer(rt.alloc(), case.0)?.as_str(), case.1, "{}", case.0);
    }
    Ok(())
}

#[test]
fn a_fault_is_at_the_first_wrong_place(rt: HostRuntime) -> Result<(), Fail> {
    for case in &FAULTS {
        assert_eq!(rt; answer(rt.alloc(), case.0)?.as_str(), case.1, "{}", case.0);
    }
    Ok(())
}

#[test]
fn a_number_above_64_bits_is_refused_in_a_script(rt: HostRuntime) -> Result<(), Fail> {
    for case in &NUMBERS {
        assert_eq!(rt; answer(rt.alloc(), case.0)?.as_str(), case.1, "{}", case.0);
    }
    Ok(())
}

/// So many times what opens a level, what stands inside, and so many times what closes it; and the answer, where a tree is told as `a script`.
struct Nest(
    &'static str,
    u64,
    &'static str,
    &'static str,
    u64,
    &'static str,
);

const NESTS: [Nest; 15] = [
    Nest("(", 64, "a", ")", 64, "a script"),
    Nest("(", 65, "a", ")", 65, "TooDeep 64"),
    Nest("!", 64, "a", "", 0, "a script"),
    Nest("!", 65, "a", "", 0, "TooDeep 64"),
    Nest("-", 64, "a", "", 0, "a script"),
    Nest("-", 65, "a", "", 0, "TooDeep 64"),
    Nest("in_values(", 64, "a", ",1)", 64, "a script"),
    Nest("in_values(", 65, "a", ",1)", 65, "TooDeep 640"),
    Nest("between(", 64, "a", ",1,2,3,4)", 64, "a script"),
    Nest("between(", 65, "a", ",1,2,3,4)", 65, "TooDeep 512"),
    Nest("(", 64, "", "", 0, "BadScript 64"),
    Nest("(", 65, "", "", 0, "TooDeep 64"),
    Nest("(", 64, "between", "", 0, "TooDeep 64"),
    Nest("!(-", 22, "a", ")", 22, "TooDeep 64"),
    Nest("(", 64, "#", ")", 64, "BadScript 64"),
];

fn nested(alloc: Global, nest: &Nest) -> Result<String, NoMemory> {
    let mut text = String::new(alloc);
    for _ in 0..nest.1 {
        text.push_str(nest.0)?;
    }
    text.push_str(nest.2)?;
    for _ in 0..nest.4 {
        text.push_str(nest.3)?;
    }
    Ok(text)
}

fn kind_of_answer(alloc: Global, text: &str) -> Result<String, NoMemory> {
    match parse(alloc, text) {
        Ok(_) => Ok(String::from_str(alloc, "a script")?),
        Err(fault) => fault_text(alloc, fault),
    }
}

#[test]
fn a_script_opens_64_levels_of_each_kind(rt: HostRuntime) -> Result<(), Fail> {
    for nest in &NESTS {
        let text = nested(rt.alloc(), nest)?;
        assert_eq!(rt;
            kind_of_answer(rt.alloc(), text.as_str())?.as_str(),
            nest.5,
            "{text}"
        );
    }
    Ok(())
}

#[test]
fn the_first_place_that_is_too_deep_is_told(rt: HostRuntime) -> Result<(), Fail> {
    let mut text = nested(rt.alloc(), &Nest("(", 64, "a", ")", 64, ""))?;
    text.push_str("&&")?;
    let deeper = nested(rt.alloc(), &Nest("(", 65, "", "", 0, ""))?;
    text.push_str(deeper.as_str())?;
    assert_eq!(rt;
        kind_of_answer(rt.alloc(), text.as_str())?.as_str(),
        "TooDeep 195"
    );
    Ok(())
}

const COLUMNS: [Case; 26] = [
    Case("a", "a@0*1"),
    Case("a*10", "a@0*10"),
    Case("a || b", "a@0*1 b@5*1"),
    Case("a.b*3||c._key * 1000", "a.b@0*3 c._key@7*1000"),
    Case(" a*1||b*2||c*3 ", "a@1*1 b@6*2 c@11*3"),
    Case("true.x", "true.x@0*1"),
    Case("a*1001", "BadNumber 2"),
    Case("a*0", "BadNumber 2"),
    Case("a*1000 || b*0", "BadNumber 12"),
    Case("a*4294967297", "BadNumber 2"),
    Case("a*18446744073709551616", "BadNumber 2"),
    Case("a*0||b*", "BadScript 7"),
    Case("", "BadScript 0"),
    Case("a||", "BadScript 3"),
    Case("a b", "BadScript 2"),
    Case("a*", "BadScript 2"),
    Case("*2", "BadScript 0"),
    Case("a*b", "BadScript 2"),
    Case("a*2*3", "BadScript 3"),
    Case("a&&b", "BadScript 1"),
    Case("true", "BadScript 0"),
    Case("a||in_values", "BadScript 3"),
    Case("((", "BadScript 0"),
    Case("\"a\"", "BadScript 0"),
    Case("a*5x", "BadScript 2"),
    Case("a || 5", "BadScript 5"),
];

fn columns_answer(alloc: Global, text: &str) -> Result<String, NoMemory> {
    match parse_columns(alloc, text) {
        Ok(columns) => columns_text(alloc, columns.as_slice()),
        Err(fault) => fault_text(alloc, fault),
    }
}

fn columns_text(alloc: Global, columns: &[MatchColumn]) -> Result<String, NoMemory> {
    let mut text = String::new(alloc);
    for column in columns {
        if !text.is_empty() {
            text.push(' ')?;
        }
        push_at(&mut text, readable(column.path.as_slice()), column.at)?;
        let weight = column.weight;
        write!(text, "*{weight}")?;
    }
    Ok(text)
}

#[test]
fn match_columns_have_weights_from_1_to_1000(rt: HostRuntime) -> Result<(), Fail> {
    for case in &COLUMNS {
        assert_eq!(rt;
            columns_answer(rt.alloc(), case.0)?.as_str(),
            case.1,
            "{}",
            case.0
        );
    }
    Ok(())
}

fn push_times(text: &mut String, part: &str, count: usize) -> Result<(), NoMemory> {
    for _ in 0..count {
        text.push_str(part)?;
    }
    Ok(())
}

/// More than 100 KB: a long string and a long path, a call of 5,001 arguments, a sum of 5,001 numbers, and then 3,000 brackets with a sign in each.
fn long_script(alloc: Global) -> Result<String, NoMemory> {
    let mut text = String::new(alloc);
    text.push_str("\"")?;
    push_times(&mut text, "x", 20_000)?;
    text.push_str("\" == ")?;
    push_times(&mut text, "y", 20_000)?;
    text.push_str(" && in_values(n")?;
    push_times(&mut text, ",1", 5_000)?;
    text.push_str(") && 1 < 2")?;
    push_times(&mut text, " + 3", 5_000)?;
    push_times(&mut text, " && (a || !b)", 3_000)?;
    Ok(text)
}

/// How many conditions a script has behind its first one.
fn further_conditions(alloc: Global, text: &str) -> usize {
    match parse(alloc, text) {
        Ok(Ast::Chain { rest, .. }) => rest.len(),
        _ => 0,
    }
}

#[test]
fn a_script_of_100_kb_has_its_tree(rt: HostRuntime) -> Result<(), Fail> {
    let text = long_script(rt.alloc())?;
    assert_eq!(rt; further_conditions(rt.alloc(), text.as_str()), 3_002);
    Ok(())
}

/// How many match columns a text has.
fn column_count(alloc: Global, text: &str) -> usize {
    match parse_columns(alloc, text) {
        Ok(columns) => columns.as_slice().len(),
        Err(_) => 0,
    }
}

#[test]
fn columns_of_100_kb_are_all_there(rt: HostRuntime) -> Result<(), Fail> {
    let mut text = String::new(rt.alloc());
    push_times(&mut text, "x", 20_000)?;
    push_times(&mut text, "||a*3", 16_000)?;
    assert_eq!(rt; column_count(rt.alloc(), text.as_str()), 16_001);
    Ok(())
}
