// The lines that create tables and data columns.
ghost use Rattle.std.specs.Prelude.{◌≡◌, ◌++◌, ◌∷◌, [], IfOk, codes};
ghost use Rattle.std.specs.List.{join_with_byte};
ghost use Rattle.std.specs.Option.{option_map_or};
ghost use Rattle.std.specs.Str.{byte};
ghost use Rattle.gr_dump.specs.Dump.{column_words, data_line, data_lines, lexicon_line, table_line};
ghost use Rattle.gr_dump.specs.Words.{holds_text, kind_text, words_line};
ghost use Rattle.gr_print.specs.Block.{type_text};

use crate::words::{holds_text, kind_text, tokenizer_text, with_bytes, with_word};
use gr_base::NoMemory;
use gr_print::type_name;
use gr_schema::{ColumnDef, Role, Schema, TableDef};
use gr_values::{DataType, Kind};

/// A table that is no lexicon.
pub(crate) fn with_table_line(text: Vec<u8>, home: &TableDef) -> Result<Vec<u8>, NoMemory>
    ensures { IfOk result (λ made. made.items ≡ text.items ++ table_line home.now) }
{
    if home.tokenizer.is_some() {
        return Ok(text);
    }
    let text = with_table_words(text, home)?;
    let text = with_key_type(text, home.key)?;
    with_bytes(text, b"\n")
}

/// A table that is a lexicon.
pub(crate) fn with_lexicon_line(text: Vec<u8>, home: &TableDef) -> Result<Vec<u8>, NoMemory>
    ensures { IfOk result (λ made. made.items ≡ text.items ++ lexicon_line home.now) }
{
    let Some(tokenizer) = home.tokenizer else {
        return Ok(text);
    };
    let text = with_table_words(text, home)?;
    let text = with_bytes(text, b" ShortText --default_tokenizer")?;
    let text = with_word(text, tokenizer_text(tokenizer).as_bytes())?;
    with_bytes(text, b"\n")
}

// The words that a table's line begins with.
fn with_table_words(text: Vec<u8>, home: &TableDef) -> Result<Vec<u8>, NoMemory>
    ensures { IfOk result (λ made. made.items ≡ text.items ++ join_with_byte (byte " ") (codes "table_create" ∷ home.now.name ∷ kind_text home.now.kind ∷ [])) }
{
    let text = with_bytes(text, b"table_create")?;
    let text = with_word(text, home.name.as_slice())?;
    with_word(text, kind_text(home.kind).as_bytes())
}

// The type of a table's keys, where it has keys.
fn with_key_type(text: Vec<u8>, key: Option<DataType>) -> Result<Vec<u8>, NoMemory>
    ensures { IfOk result (λ made. made.items ≡ text.items ++ option_map_or (λ of. byte " " ∷ type_text of) key []) }
{
    match key {
        Some(of) => with_word(text, type_name(of).as_bytes()),
        None => Ok(text),
    }
}

/// The data columns of a table.
pub(crate) fn with_data_lines(
    text: Vec<u8>,
    schema: &Schema,
    home: &TableDef,
) -> Result<Vec<u8>, NoMemory>
    ensures { IfOk result (λ made. made.items ≡ text.items ++ data_lines schema.now home.now) }
{
    let mut text = text;
    for column in home.columns.iter(0, home.columns.len()) {
        text = with_data_line(text, schema, home, column)?;
    }
    Ok(text)
}

// A column, where it holds data.
fn with_data_line(
    text: Vec<u8>,
    schema: &Schema,
    home: &TableDef,
    column: &ColumnDef,
) -> Result<Vec<u8>, NoMemory>
    ensures { IfOk result (λ made. made.items ≡ text.items ++ data_line schema.now home.now column.now column.now.role) }
{
    match &column.role {
        Role::Scalar(kind) => {
            with_data_column(text, schema, home, column, b"COLUMN_SCALAR", *kind)
        }
        Role::Vector(kind) => {
            with_data_column(text, schema, home, column, b"COLUMN_VECTOR", *kind)
        }
        Role::Index { .. } => Ok(text),
    }
}

// A column that holds one value or a list of them, as these flags say.
fn with_data_column(
    text: Vec<u8>,
    schema: &Schema,
    home: &TableDef,
    column: &ColumnDef,
    flags: &[u8],
    kind: Kind,
) -> Result<Vec<u8>, NoMemory>
    ensures { IfOk result (λ made. made.items ≡ text.items ++ words_line (column_words home.now column.now flags.now (holds_text schema.now kind))) }
{
    let text = with_column_words(text, home, column, flags, holds_text(schema, kind))?;
    with_bytes(text, b"\n")
}

/// The words that a column's line begins with.
pub(crate) fn with_column_words(
    text: Vec<u8>,
    home: &TableDef,
    column: &ColumnDef,
    flags: &[u8],
    holds: &[u8],
) -> Result<Vec<u8>, NoMemory>
    ensures { IfOk result (λ made. made.items ≡ text.items ++ join_with_byte (byte " ") (column_words home.now column.now flags.now holds.now)) }
{
    let text = with_bytes(text, b"column_create")?;
    let text = with_word(text, home.name.as_slice())?;
    let text = with_word(text, column.name.as_slice())?;
    let text = with_word(text, flags)?;
    with_word(text, holds)
}
