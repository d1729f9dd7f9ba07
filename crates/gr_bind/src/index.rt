// Match columns that are indexes, which stand for their sources.
ghost use Rattle.std.specs.Prelude.{◌≡◌, [], IfOk};
ghost use Rattle.std.specs.List.{cons_option, filter_map, slice_split};
ghost use Rattle.std.specs.Option.{option_copied, option_map};
ghost use Rattle.gr_ast.specs.Columns.{IsMadeColumn};
ghost use Rattle.gr_bind.specs.Columns.{by_tokenizer, field_path, index_columns, index_named, source_column, sources_on};
ghost use Rattle.gr_bind.specs.Inside.Names.{index_by_names, path_to};
ghost use Rattle.gr_bind.specs.Inside.Told.{Tells};
ghost use Rattle.gr_schema.specs.Paths.{is_dot, kind_end, plain_end, role_end};

use crate::column::Column;
use crate::cut::two_names;
use gr_base::{Failure, Fault, FaultKind, ListOf, NoMemory, TableNo};
use gr_expr::{By, MatchColumn};
use gr_schema::{Role, Schema};
use gr_tokens::Tokenizer;
use gr_values::{DataType, Field, Kind, Path, Shape};
use sqlite_items::Items;
use std::alloc::Global;

// What a match column means that is no path.
pub(crate) fn index_columns(
    alloc: Global,
    schema: &Schema,
    table: TableNo,
    of: &MatchColumn,
) -> Result<Items<Column>, Failure<Fault>>
    requires made { IsMadeColumn of.now }
    ensures { Tells result (index_columns schema.now table of.now) }
{
    match index_named(schema, table, of.path.as_slice()) {
        Some((tokenizer, sources)) => {
            Ok(source_columns(alloc, schema, table, of.weight, tokenizer, sources)?)
        }
        None => {
            let name = of.path.try_clone()?;
            Err(Failure::Refused(Fault::named(FaultKind::NoSuchColumn, name)))
        }
    }
}

// The index that a text names by a lexicon and a column of it: how the lexicon cuts texts, and the index's sources on this table.
fn index_named<'a>(
    schema: &'a Schema,
    table: TableNo,
    text: &[u8],
) -> Option<(Tokenizer, &'a [Field])>
    ensures { option_map (λ index. (index.0, index.1.now)) result ≡ index_named schema.now table (slice_split is_dot text.now) }
{
    let (lexicon, column) = two_names(text)?;
    index_by_names(schema, table, lexicon, column)
}

fn index_by_names<'a>(
    schema: &'a Schema,
    table: TableNo,
    lexicon: &[u8],
    column: &[u8],
) -> Option<(Tokenizer, &'a [Field])>
    ensures { option_map (λ index. (index.0, index.1.now)) result ≡ index_by_names schema.now table (lexicon.now, column.now) }
{
    let number = schema.table(lexicon)?;
    let home = schema.def(number)?;
    let tokenizer = home.tokenizer?;
    let place = schema.column(number, column)?;
    let def = home.columns.get(place.0 as u64)?;
    let sources = sources_on(&def.role, table)?;
    Some((tokenizer, sources))
}

// The sources of an index on this table.
fn sources_on(role: &Role, table: TableNo) -> Option<&[Field]>
    ensures { option_map (λ sources. sources.now) result ≡ sources_on table role.now }
{
    match role {
        Role::Index {
            target,
            sources,
            ..
        } if target.0 == table.0 => Some(sources.as_slice()),
        _ => None,
    }
}

// The sources as fields that words are sought in.
fn source_columns(
    alloc: Global,
    schema: &Schema,
    table: TableNo,
    weight: u32,
    tokenizer: Tokenizer,
    sources: &[Field],
) -> Result<Items<Column>, NoMemory>
    ensures { IfOk result (λ columns. columns ≡ filter_map (source_column schema.now table weight tokenizer) sources.now) }
{
    let mut columns = Items::new(alloc);
    for source in sources {
        let column = source_column(alloc, schema, table, weight, tokenizer, *source);
        columns.append(items_of(alloc, column)?)?;
    }
    Ok(columns)
}

// The column, where there is one.
fn items_of(alloc: Global, column: Option<Column>) -> Result<Items<Column>, NoMemory>
    ensures { IfOk result (λ columns. columns ≡ cons_option column []) }
{
    let mut columns = Items::new(alloc);
    match column {
        Some(column) => {
            columns.push(column)?;
            Ok(columns)
        }
        None => Ok(columns),
    }
}

fn source_column(
    alloc: Global,
    schema: &Schema,
    table: TableNo,
    weight: u32,
    tokenizer: Tokenizer,
    source: Field,
) -> Option<Column>
    ensures { result ≡ source_column schema.now table weight tokenizer source }
{
    let path = field_path(alloc, schema, table, source)?;
    let by = by_tokenizer(tokenizer);
    Some(Column { weight, path, by })
}

fn by_tokenizer(tokenizer: Tokenizer) -> By
    ensures { result ≡ by_tokenizer tokenizer }
{
    match tokenizer {
        Tokenizer::Delimit => By::Words,
        Tokenizer::Bigram => By::Chars,
    }
}

// The path to a field of a table itself.
fn field_path(alloc: Global, schema: &Schema, table: TableNo, field: Field) -> Option<Path>
    ensures { result ≡ field_path schema.now table field }
{
    let home = schema.def(table)?;
    match field {
        Field::Id => None,
        Field::Key => {
            let of = home.key?;
            Some(plain_path(alloc, table, field, false, of))
        }
        Field::Column(column) => {
            let def = home.columns.get(column.0 as u64)?;
            role_path(alloc, schema, table, field, &def.role)
        }
    }
}

// The path to a data column.
fn role_path(
    alloc: Global,
    schema: &Schema,
    table: TableNo,
    field: Field,
    role: &Role,
) -> Option<Path>
    ensures { result ≡ option_map (path_to table) (role_end schema.now field role.now) }
{
    match role {
        Role::Scalar(kind) => kind_path(alloc, schema, table, field, false, *kind),
        Role::Vector(kind) => kind_path(alloc, schema, table, field, true, *kind),
        Role::Index { .. } => None,
    }
}

fn kind_path(
    alloc: Global,
    schema: &Schema,
    table: TableNo,
    field: Field,
    list: bool,
    kind: Kind,
) -> Option<Path>
    ensures { result ≡ option_map (path_to table) (kind_end schema.now field list kind) }
{
    match kind {
        Kind::Plain(of) => Some(plain_path(alloc, table, field, list, of)),
        Kind::Reference(to) => {
            let of = schema.def(to)?.key?;
            let reference = true;
            let shape = Shape {
                list,
                of,
                reference,
            };
            Some(path_to(alloc, table, field, shape, Some(to)))
        }
    }
}

// The path to a field with values of this type.
fn plain_path(alloc: Global, table: TableNo, field: Field, list: bool, of: DataType) -> Path
    ensures { result ≡ path_to table (plain_end field list of) }
{
    let reference = false;
    let shape = Shape {
        list,
        of,
        reference,
    };
    path_to(alloc, table, field, shape, None)
}

fn path_to(alloc: Global, table: TableNo, last: Field, shape: Shape, to: Option<TableNo>) -> Path
    ensures { result ≡ path_to table (record { last = last; shape = shape; to = to }) }
{
    let through = ListOf::from_vec(Vec::new(alloc));
    Path {
        table,
        through,
        last,
        shape,
        to,
    }
}
