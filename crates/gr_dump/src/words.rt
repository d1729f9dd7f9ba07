// The words in which tables and columns are written.
ghost use Rattle.std.specs.Prelude.{◌≡◌, ◌++◌, ◌∷◌, IfOk};
ghost use Rattle.std.specs.Str.{byte};
ghost use Rattle.gr_dump.specs.Words.{field_name, holds_text, index_flags, kind_text, table_name, tokenizer_text};

use gr_base::{NoMemory, TableNo};
use gr_print::type_name;
use gr_schema::{Schema, TableDef, TableKind};
use gr_tokens::Tokenizer;
use gr_values::{Field, Kind};

/// A text and more bytes after it.
pub(crate) fn with_bytes(text: Vec<u8>, bytes: &[u8]) -> Result<Vec<u8>, NoMemory>
    ensures { IfOk result (λ made. made.items ≡ text.items ++ bytes.now) }
{
    let mut text = text;
    text.extend_from_slice(bytes)?;
    Ok(text)
}

/// A text, and a space and a word after it.
pub(crate) fn with_word(text: Vec<u8>, word: &[u8]) -> Result<Vec<u8>, NoMemory>
    ensures { IfOk result (λ made. made.items ≡ text.items ++ byte " " ∷ word.now) }
{
    let text = with_bytes(text, b" ")?;
    with_bytes(text, word)
}

/// The kind of a table.
pub(crate) fn kind_text(kind: TableKind) -> &'static str
    ensures { result.now ≡ kind_text kind }
{
    match kind {
        TableKind::NoKey => "TABLE_NO_KEY",
        TableKind::Hash => "TABLE_HASH_KEY",
        TableKind::Pat => "TABLE_PAT_KEY",
    }
}

/// How a lexicon cuts texts.
pub(crate) fn tokenizer_text(tokenizer: Tokenizer) -> &'static str
    ensures { result.now ≡ tokenizer_text tokenizer }
{
    match tokenizer {
        Tokenizer::Delimit => "TokenDelimit",
        Tokenizer::Bigram => "TokenBigram",
    }
}

/// The name of a table.
pub(crate) fn table_name(schema: &Schema, table: TableNo) -> &[u8]
    ensures { result.now ≡ table_name schema.now table }
{
    match schema.def(table) {
        Some(def) => def.name.as_slice(),
        None => &[],
    }
}

/// What a column holds: a type, or the table that it refers to.
pub(crate) fn holds_text(schema: &Schema, kind: Kind) -> &[u8]
    ensures { result.now ≡ holds_text schema.now kind }
{
    match kind {
        Kind::Plain(of) => type_name(of).as_bytes(),
        Kind::Reference(to) => table_name(schema, to),
    }
}

/// The name of a field of a table's records.
pub(crate) fn field_name(home: &TableDef, field: Field) -> &[u8]
    ensures { result.now ≡ field_name home.now field }
{
    match field {
        Field::Id => b"_id",
        Field::Key => b"_key",
        Field::Column(column) => match home.columns.get(column.0 as u64) {
            Some(def) => def.name.as_slice(),
            None => &[],
        },
    }
}

/// The flags of an index.
pub(crate) fn index_flags(section: bool, position: bool) -> &'static str
    ensures { result.now ≡ index_flags section position }
{
    match (section, position) {
        (false, false) => "COLUMN_INDEX",
        (false, true) => "COLUMN_INDEX|WITH_POSITION",
        (true, false) => "COLUMN_INDEX|WITH_SECTION",
        (true, true) => "COLUMN_INDEX|WITH_SECTION|WITH_POSITION",
    }
}
