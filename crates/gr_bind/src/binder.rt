// Trees, typed from the leaves on: the parts of a tree first, and then its operator.
ghost use Rattle.std.specs.Prelude.{◌≡◌, ◌<◌, length};
ghost use Rattle.std.specs.List.{AllByRecursion};
ghost use Rattle.gr_ast.specs.Made.{IsMade};
ghost use Rattle.gr_bind.specs.Inside.Folded.{among_at, between_at, link_at, part_at, term_at, value_at};
ghost use Rattle.gr_bind.specs.Inside.Parts.{IsMadeLink, IsMadeTerm};
ghost use Rattle.gr_bind.specs.Inside.Placed.{IsPart};
ghost use Rattle.gr_bind.specs.Inside.Told.{Tells};
ghost use Rattle.gr_bind.specs.Typing.{condition, each, part_of};

use crate::column::Column;
use crate::fields::{FieldTest, field, path};
use crate::literals::{number, text};
use crate::operand::{Operand, ValueKind};
use crate::operators::{
    RangeEnd, added, between, calculation, chain, combined, comparison, end, in_values, joined,
    minus, not, search,
};
use crate::part::TypedPart;
use crate::refused::refused;
use crate::words::word;
use gr_base::{Cmp, Failure, Fault, FaultKind, TableNo};
use gr_expr::{Ast, Combined, CombinedTerm, Expr, Joined, JoinedExpr, Literal, Term};
use gr_schema::Schema;
use sqlite_items::Items;
use std::alloc::Global;

/// What a tree is typed for: a table of a schema, and the columns that its words are sought in.
#[derive(Drop)]
pub(crate) struct Binder<'a> {
    /// Where trees are made.
    pub(crate) alloc: Global,
    /// The schema.
    pub(crate) schema: &'a Schema,
    /// The table.
    pub(crate) table: TableNo,
    /// The columns, where there are some.
    pub(crate) columns: Option<Items<Column>>,
}

impl Binder<'_> {
    // A tree as a condition.
    pub(crate) fn condition(&self, tree: &Ast) -> Result<Expr, Failure<Fault>>
        requires there { self.now.table.0 < length self.now.schema.now.tables }
        requires made { IsMade tree.now }
        ensures { Tells result (condition (part_of self.now.schema.now self.now.table self.now.columns tree.now)) }
    {
        self.part(tree).condition(self.alloc)
    }

    // A tree with its place.
    #[cycle(binder)]
    fn part(&self, tree: &Ast) -> TypedPart
        requires there { self.now.table.0 < length self.now.schema.now.tables }
        requires made { IsMade tree.now }
        ensures { IsPart result (part_at self.now tree.now) }
    {
        let at = tree.at();
        let operand = self.operand(tree);
        TypedPart { at, operand }
    }

    // What a tree means, before its operator takes it.
    #[cycle(binder)]
    fn operand(&self, tree: &Ast) -> Result<Operand, Failure<Fault>>
        requires there { self.now.table.0 < length self.now.schema.now.tables }
        requires made { IsMade tree.now }
        ensures { Tells result (part_at self.now tree.now).typed }
    {
        let alloc = self.alloc;
        match tree {
            Ast::Chain { first, rest, .. } => {
                chain(alloc, self.part(first.get()), self.links(rest.as_slice()))
            }
            Ast::Not { of, .. } => not(alloc, self.part(of.get())),
            Ast::Minus { of, .. } => minus(alloc, self.part(of.get())),
            Ast::Compare {
                cmp,
                left,
                right,
                ..
            } => comparison(alloc, *cmp, self.part(left.get()), self.part(right.get())),
            Ast::Find {
                seek,
                left,
                right,
                ..
            } => {
                let left = self.part(left.get());
                let tree = right.get();
                search(alloc, self.schema, *seek, left, self.part(tree), tree)
            }
            Ast::Calc { first, rest, .. } => {
                calculation(alloc, self.part(first.get()), self.terms(rest.as_slice()))
            }
            Ast::Between { at, args } => self.between(args.as_slice(), *at),
            Ast::InValues { at, args } => self.in_values(args.as_slice(), *at),
            Ast::Path { text, .. } => path(alloc, self.schema, self.table, text),
            Ast::Number { value, .. } => Ok(number(*value)),
            Ast::Text { bytes, .. } => text(bytes),
            Ast::Truth { value, .. } => Ok(Operand::Literal(Literal::Truth(*value))),
            Ast::All { .. } => Ok(Operand::Condition(Expr::All)),
            Ast::Word { at, seek, text } => word(alloc, &self.columns, *at, *seek, text),
            Ast::FieldTest {
                at,
                path,
                test,
                text,
            } => {
                let (at, test) = (*at, *test);
                let of = FieldTest {
                    at,
                    path,
                    test,
                    text,
                };
                field(alloc, self.schema, self.table, of)
            }
        }
    }

    // Conditions behind what joins them.
    #[cycle(binder)]
    fn links(&self, links: &[Joined]) -> Result<Items<JoinedExpr>, Failure<Fault>>
        requires there { self.now.table.0 < length self.now.schema.now.tables }
        requires made { AllByRecursion IsMadeLink links.now }
        ensures { Tells result (each (link_at self.now) links.now) }
    {
        let mut others = Items::new(self.alloc);
        for link in links {
            others = added(others, joined(self.alloc, link.join, self.part(&link.of)))?;
        }
        Ok(others)
    }

    // Numbers behind their signs.
    #[cycle(binder)]
    fn terms(&self, terms: &[Combined]) -> Result<Items<CombinedTerm>, Failure<Fault>>
        requires there { self.now.table.0 < length self.now.schema.now.tables }
        requires made { AllByRecursion IsMadeTerm terms.now }
        ensures { Tells result (each (term_at self.now) terms.now) }
    {
        let mut others = Items::new(self.alloc);
        for term in terms {
            others = added(
                others,
                combined(self.alloc, term.arith, self.part(&term.of)),
            )?;
        }
        Ok(others)
    }

    // A value between two ends of its kind.
    #[cycle(binder)]
    fn between(&self, args: &[Ast], at: u64) -> Result<Operand, Failure<Fault>>
        requires there { self.now.table.0 < length self.now.schema.now.tables }
        requires made { AllByRecursion IsMade args.now }
        ensures { Tells result (between_at self.now at args.now) }
    {
        match args {
            [value, low, with_low, high, with_high] => {
                let value = self.part(value);
                let low = RangeEnd {
                    of: self.part(low),
                    included: end(self.alloc, self.part(with_low), with_low),
                };
                let high = RangeEnd {
                    of: self.part(high),
                    included: end(self.alloc, self.part(with_high), with_high),
                };
                between(self.alloc, value, low, high)
            }
            _ => refused(self.alloc, FaultKind::TypeMismatch, at),
        }
    }

    // A value among others of its kind.
    #[cycle(binder)]
    fn in_values(&self, args: &[Ast], at: u64) -> Result<Operand, Failure<Fault>>
        requires there { self.now.table.0 < length self.now.schema.now.tables }
        requires made { AllByRecursion IsMade args.now }
        ensures { Tells result (among_at self.now at args.now) }
    {
        match args {
            [value, others @ ..] => {
                let (kind, value) = self.part(value).compared(self.alloc, Cmp::Eq)?;
                in_values(value, self.values(others, kind))
            }
            [] => refused(self.alloc, FaultKind::TypeMismatch, at),
        }
    }

    // Values of one kind.
    #[cycle(binder)]
    fn values(&self, trees: &[Ast], kind: ValueKind) -> Result<Items<Term>, Failure<Fault>>
        requires there { self.now.table.0 < length self.now.schema.now.tables }
        requires made { AllByRecursion IsMade trees.now }
        ensures { Tells result (each (value_at self.now kind) trees.now) }
    {
        let mut values = Items::new(self.alloc);
        for tree in trees {
            values = added(values, self.part(tree).of_kind(self.alloc, kind))?;
        }
        Ok(values)
    }
}
