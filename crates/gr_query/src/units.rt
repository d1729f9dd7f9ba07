// Units that are joined, and the trees that they make.
ghost use Rattle.std.specs.Prelude.{◌≡◌, ◌∷◌, [], IfOk, OnOk};
ghost use Rattle.gr_query.specs.Inside.Machine.{placed};
ghost use Rattle.gr_ast.specs.Trees.{link};
ghost use Rattle.gr_query.specs.Units.{alone, tree_of, with_links};

use crate::frame::{Before, Units};
use gr_ast::{Ast, Join, Joined, room_for_one};
use gr_base::NoMemory;
use sqlite_items::{Boxed, Items};
use std::alloc::Global;

/// A unit alone, where the first token that is no opening bracket is at this place.
pub(crate) fn alone(alloc: Global, at: u64, first: Ast) -> Units
    ensures { result ≡ alone at first }
{
    Units {
        at,
        first,
        links: Items::new(alloc),
    }
}

/// No unit is read yet.
pub(crate) fn unread(alloc: Global) -> Units {
    alone(alloc, 0, Ast::All { at: 0 })
}

/// A unit behind what stands before it.
pub(crate) fn placed(alloc: Global, before: Before, at: u64, tree: Ast) -> Result<Units, NoMemory>
    ensures { IfOk result (λ units. units ≡ placed before at tree) }
{
    match before {
        Before::Nothing => Ok(alone(alloc, at, tree)),
        Before::Plus(sign) => Ok(alone(alloc, sign, tree)),
        Before::Joins(mut units, join) => {
            push(alloc, &mut units, join, tree)?;
            Ok(units)
        }
    }
}

/// One more unit at the end.
pub(crate) fn push(alloc: Global, units: &mut Units, join: Join, of: Ast) -> Result<(), NoMemory>
    ensures { OnOk result (units.new ≡ with_links units.old (link join of ∷ [])) }
{
    if units.links.is_empty() {
        units.links = room_for_one(alloc)?;
    }
    units.links.push(Joined { join, of })?;
    Ok(())
}

/// The tree of units.
pub(crate) fn tree_of(alloc: Global, units: Units) -> Result<Ast, NoMemory>
    ensures { IfOk result (λ tree. tree ≡ tree_of units) }
{
    let Units { at, first, links } = units;
    if links.is_empty() {
        return Ok(first);
    }
    let first = Boxed::new(alloc, first)?;
    Ok(Ast::Chain {
        at,
        first,
        rest: links,
    })
}
