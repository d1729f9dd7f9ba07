// The fixed words of wishes: types, kinds of tables, tokenizers, and the names that are not free.
ghost use Rattle.std.specs.Prelude.{◌≡◌, find, map};
ghost use Rattle.std.specs.List.{list_any};
ghost use Rattle.std.specs.Option.{option_map};
ghost use Rattle.std.specs.Str.{bytes_eq};
ghost use Rattle.gr_schema.specs.Words.{is_one_of, named, reserved_names, script_words, table_kinds, tokenizers, types};

use crate::TableKind;
use gr_tokens::Tokenizer;
use gr_values::DataType;

const TYPES: [(&str, DataType); 12] = [
    ("Bool", DataType::Bool),
    ("Int8", DataType::Int8),
    ("Int16", DataType::Int16),
    ("Int32", DataType::Int32),
    ("Int64", DataType::Int64),
    ("UInt8", DataType::UInt8),
    ("UInt16", DataType::UInt16),
    ("UInt32", DataType::UInt32),
    ("UInt64", DataType::UInt64),
    ("ShortText", DataType::ShortText),
    ("Text", DataType::Text),
    ("LongText", DataType::LongText),
];

const TABLE_KINDS: [(&str, TableKind); 3] = [
    ("TABLE_NO_KEY", TableKind::NoKey),
    ("TABLE_HASH_KEY", TableKind::Hash),
    ("TABLE_PAT_KEY", TableKind::Pat),
];

const TOKENIZERS: [(&str, Tokenizer); 2] = [
    ("TokenDelimit", Tokenizer::Delimit),
    ("TokenBigram", Tokenizer::Bigram),
];

const RESERVED_NAMES: [&str; 19] = [
    "Bool",
    "Int8",
    "Int16",
    "Int32",
    "Int64",
    "UInt8",
    "UInt16",
    "UInt32",
    "UInt64",
    "ShortText",
    "Text",
    "LongText",
    "Float",
    "Float32",
    "Time",
    "TokyoGeoPoint",
    "WGS84GeoPoint",
    "TokenDelimit",
    "TokenBigram",
];

const SCRIPT_WORDS: [&str; 5] = ["true", "false", "null", "between", "in_values"];

/// The name of each record's id.
pub(crate) const ID_NAME: &str = "_id";

/// The name of a record's key.
pub(crate) const KEY_NAME: &str = "_key";

// The type of values of this name.
#[tactic(auto, unfolding(crate::specs::Words::types))]
pub(crate) fn type_named(name: &[u8]) -> Option<DataType>
    ensures { result ≡ named types name.now }
{
    value_of(&TYPES, name)
}

// The kind of tables that this flag asks for.
#[tactic(auto, unfolding(crate::specs::Words::table_kinds))]
pub(crate) fn table_kind_named(flag: &[u8]) -> Option<TableKind>
    ensures { result ≡ named table_kinds flag.now }
{
    value_of(&TABLE_KINDS, flag)
}

// The tokenizer of this name.
#[tactic(auto, unfolding(crate::specs::Words::tokenizers))]
pub(crate) fn tokenizer_named(name: &[u8]) -> Option<Tokenizer>
    ensures { result ≡ named tokenizers name.now }
{
    value_of(&TOKENIZERS, name)
}

// Whether a name is that of a type or a tokenizer, which no table can have.
#[tactic(auto, unfolding(crate::specs::Words::reserved_names))]
pub(crate) fn is_reserved(name: &[u8]) -> bool
    ensures { result ≡ is_one_of reserved_names name.now }
{
    is_one_of(name, &RESERVED_NAMES)
}

// Whether a name is a word of the script syntax, which no column can have.
#[tactic(auto, unfolding(crate::specs::Words::script_words))]
pub(crate) fn is_script_word(name: &[u8]) -> bool
    ensures { result ≡ is_one_of script_words name.now }
{
    is_one_of(name, &SCRIPT_WORDS)
}

// What stands beside a name.
fn value_of<T: Copy>(rows: &[(&str, T)], name: &[u8]) -> Option<T>
    ensures { result ≡ named (map (λ row. (row.0.now, row.1)) rows.now) name.now }
{
    value_found(rows, name)
}

fn value_found<T: Copy>(rows: &[(&str, T)], name: &[u8]) -> Option<T>
    ensures { result ≡ option_map (λ row. row.1) (find (λ row. bytes_eq row.0.now name.now) rows.now) }
{
    let row = rows.iter().find(|row| row.0.as_bytes() == name)?;
    Some(row.1)
}

// Whether a text is one of these words.
pub(crate) fn is_one_of(text: &[u8], words: &[&str]) -> bool
    ensures { result ≡ list_any (λ word. bytes_eq word.now text.now) words.now }
{
    words.iter().any(|word| word.as_bytes() == text)
}
