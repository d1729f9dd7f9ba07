// Fields by their names, and tests of them.
ghost use Rattle.std.specs.Prelude.{◌≡◌, ◌<◌, length, IsUtf8};
ghost use Rattle.gr_base.specs.Failure.{result_map};
ghost use Rattle.gr_bind.specs.Inside.Told.{Tells};
ghost use Rattle.gr_bind.specs.Kinds.{path_kind};
ghost use Rattle.gr_bind.specs.Typing.{field, leaf, literal_for, named, tested};
ghost use Rattle.gr_bind.specs.declared.operand.Operand.{Operand};

use crate::column::by_path;
use crate::kinds::{is_tested, path_kind};
use crate::literals::literal_for;
use crate::operand::Operand;
use crate::refused::refused;
use gr_base::{Bytes, Failure, Fault, FaultKind, TableNo};
use gr_expr::{Expr, FieldOp, Literal, Seek, SeekLeaf, Term};
use gr_schema::Schema;
use gr_values::Path;
use std::alloc::Global;

// The field that a text writes.
fn named(
    alloc: Global,
    schema: &Schema,
    table: TableNo,
    text: &Bytes,
) -> Result<Path, Failure<Fault>>
    requires there { table.0 < length schema.now.tables }
    requires text { IsUtf8 text.now }
    ensures { Tells result (named schema.now table text.now) }
{
    schema.resolve(alloc, table, text.as_slice())
}

// A field by its name.
pub(crate) fn path(
    alloc: Global,
    schema: &Schema,
    table: TableNo,
    text: &Bytes,
) -> Result<Operand, Failure<Fault>>
    requires there { table.0 < length schema.now.tables }
    requires text { IsUtf8 text.now }
    ensures { Tells result (result_map Operand.Path (named schema.now table text.now)) }
{
    Ok(Operand::Path(named(alloc, schema, table, text)?))
}

// A search in a field.
pub(crate) fn leaf(schema: &Schema, path: Path, seek: Seek, value: Literal) -> SeekLeaf
    ensures { result ≡ leaf schema.now path seek value }
{
    let by = by_path(schema, &path);
    SeekLeaf {
        path,
        seek,
        by,
        value,
    }
}

// A test of a field with a literal.
fn tested(schema: &Schema, path: Path, test: FieldOp, literal: Literal) -> Expr
    ensures { result ≡ tested schema.now path test literal }
{
    match test {
        FieldOp::Compare(cmp) => { Expr::Compare(cmp, Term::Cell(path), Term::Literal(literal)) }
        FieldOp::Find(seek) => Expr::Seek(leaf(schema, path, seek, literal)),
    }
}

/// A test of one field in a query, as it is written.
#[derive(Clone, Copy)]
pub(crate) struct FieldTest<'a> {
    /// Its place.
    pub(crate) at: u64,
    /// The field's name.
    pub(crate) path: &'a Bytes,
    /// What it is tested by.
    pub(crate) test: FieldOp,
    /// What it is tested with.
    pub(crate) text: &'a Bytes,
}

// A test of a field: the field, then whether the test takes it, then its literal.
pub(crate) fn field(
    alloc: Global,
    schema: &Schema,
    table: TableNo,
    of: FieldTest<'_>,
) -> Result<Operand, Failure<Fault>>
    requires there { table.0 < length schema.now.tables }
    requires path { IsUtf8 of.path.now }
    requires text { IsUtf8 of.text.now }
    ensures { Tells result (field schema.now table of.entry.at of.entry.path.now of.entry.test of.entry.text.now) }
{
    let path = named(alloc, schema, table, of.path)?;
    if !is_tested(of.test, &path) {
        return refused(alloc, FaultKind::TypeMismatch, of.at);
    }
    field_with(alloc, schema, path, of)
}

// A test, which takes its field, with the literal that its text writes.
fn field_with(
    alloc: Global,
    schema: &Schema,
    path: Path,
    of: FieldTest<'_>,
) -> Result<Operand, Failure<Fault>>
    requires { IsUtf8 of.text.now }
    ensures { Tells result (result_map (λ literal. Operand.Condition (tested schema.now path of.entry.test literal)) (literal_for of.entry.at (path_kind path) of.entry.text.now)) }
{
    let literal = literal_for(alloc, of.at, path_kind(&path), of.text)?;
    Ok(Operand::Condition(tested(schema, path, of.test, literal)))
}
