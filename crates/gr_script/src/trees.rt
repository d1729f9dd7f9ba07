// The trees that the grammar makes of its parts.
ghost use Rattle.std.specs.Prelude.{◌≡◌, ◌++◌, ◌∷◌, [], OnOk};
ghost use Rattle.gr_ast.specs.declared.ast.Ast.TheVariants as ast;
ghost use Rattle.gr_script.specs.Inside.Machine.{closed};
ghost use Rattle.gr_ast.specs.Trees.{place_of, link, term};
ghost use Rattle.gr_script.specs.Trees.{tested, signed, called};

use crate::frame::Frame;
use crate::grammar::{Call, Sign};
use gr_ast::{Arith, Ast, Combined, FieldOp, Join, Joined};
use gr_base::NoMemory;
use sqlite_items::{Boxed, Items};
use std::alloc::Global;
use std::mem::replace;

/// The tree, with another left in its place.
pub(crate) fn take_tree(tree: &mut Ast) -> Ast
    ensures { result ≡ tree.old }
{
    replace(tree, Ast::All { at: 0 })
}

/// Makes the operand that a part waits for the tree of that part.
pub(crate) fn close_part(alloc: Global, frame: Frame, tree: &mut Ast) -> Result<(), NoMemory>
    ensures { OnOk result (tree.new ≡ closed frame tree.old) }
{
    match frame {
        Frame::Joining {
            first,
            links,
            join,
            ..
        } => chain(first, links, join, tree),
        Frame::Testing { test, left } => make_test(alloc, test, left, tree),
        Frame::Combining {
            first,
            terms,
            arith,
            ..
        } => calculate(first, terms, arith, tree),
        Frame::Signing { sign, at } => make_signed(alloc, sign, at, tree),
        Frame::Grouping => Ok(()),
        Frame::Calling { .. } => Ok(()),
    }
}

/// Puts the tree behind conditions in a row.
fn chain(
    first: Boxed<Ast>,
    links: Items<Joined>,
    join: Join,
    tree: &mut Ast,
) -> Result<(), NoMemory>
    ensures { OnOk result (tree.new ≡ ast.Chain (place_of first) first (links ++ link join tree.old ∷ [])) }
{
    let of = take_tree(tree);
    let mut rest = links;
    rest.push(Joined { join, of })?;
    let at = first.get().at();
    *tree = Ast::Chain { at, first, rest };
    Ok(())
}

/// Puts the tree behind numbers in a row.
fn calculate(
    first: Boxed<Ast>,
    terms: Items<Combined>,
    arith: Arith,
    tree: &mut Ast,
) -> Result<(), NoMemory>
    ensures { OnOk result (tree.new ≡ ast.Calc (place_of first) first (terms ++ term arith tree.old ∷ [])) }
{
    let of = take_tree(tree);
    let mut rest = terms;
    rest.push(Combined { arith, of })?;
    let at = first.get().at();
    *tree = Ast::Calc { at, first, rest };
    Ok(())
}

/// Makes the tree the right side of a comparison or a search.
fn make_test(alloc: Global, test: FieldOp, left: Boxed<Ast>, tree: &mut Ast) -> Result<(), NoMemory>
    ensures { OnOk result (tree.new ≡ tested test left tree.old) }
{
    let at = left.get().at();
    let right = Boxed::new(alloc, take_tree(tree))?;
    *tree = match test {
        FieldOp::Compare(cmp) => Ast::Compare {
            at,
            cmp,
            left,
            right,
        },
        FieldOp::Find(seek) => Ast::Find {
            at,
            seek,
            left,
            right,
        },
    };
    Ok(())
}

/// Puts the tree behind a sign that stands at this place.
fn make_signed(alloc: Global, sign: Sign, at: u64, tree: &mut Ast) -> Result<(), NoMemory>
    ensures { OnOk result (tree.new ≡ signed sign at tree.old) }
{
    let of = Boxed::new(alloc, take_tree(tree))?;
    *tree = match sign {
        Sign::Not => Ast::Not { at, of },
        Sign::Minus => Ast::Minus { at, of },
    };
    Ok(())
}

/// A call whose name stands at this place.
pub(crate) fn called(call: Call, at: u64, args: Items<Ast>) -> Ast
    ensures { result ≡ called call at args }
{
    match call {
        Call::Between => Ast::Between { at, args },
        Call::InValues => Ast::InValues { at, args },
    }
}
