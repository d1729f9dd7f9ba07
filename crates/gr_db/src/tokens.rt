// The tokens that a put wants, of the keys that it adds and of its texts.
ghost use Rattle.std.specs.Prelude.{◌≡◌, ◌++◌, [], IfOk, OnOk, if◌then◌else◌, map};
ghost use Rattle.std.specs.List.{AllByRecursion, flat_map, list_any};
ghost use Rattle.std.specs.Option.{option_and_then, option_copied};
ghost use Rattle.gr_db.specs.Entry.{AreDistinct, IsReadableNew, IsReadableSetting, IsReadableWant};
ghost use Rattle.gr_db.specs.Inside.Wanting.{token_want};
ghost use Rattle.gr_db.specs.Wants.{index_wants, key_wants, setting_wants, text_wants, token_wants};
ghost use Rattle.gr_schema.specs.Fields.{is_same_field};
ghost use Rattle.gr_schema.specs.Index.{fields_read, index_fields, is_on};
ghost use Rattle.gr_schema.specs.Schema.{table_at};
ghost use Rattle.gr_tokens.specs.Tokens.{tokens};

use crate::sorted::by_column;
use crate::{Added, Want};
use gr_base::{Bytes, ColumnNo, NoMemory, TableNo};
use gr_schema::{Role, Schema};
use gr_tokens::{Bigram, Delimit, Tokenizer};
use gr_values::{Field, Given, Key};
use std::alloc::Global;

/// The tokens that a put wants, in order: those of the keys of records that it added, and then those of its settings, column by column.
pub fn token_wants(
    alloc: Global,
    schema: &Schema,
    table: TableNo,
    settings: &[(ColumnNo, Given)],
    news: &[Added],
) -> Result<Vec<Want>, NoMemory>
    requires distinct { AreDistinct settings.now }
    requires texts { AllByRecursion IsReadableSetting settings.now }
    requires keys { AllByRecursion IsReadableNew news.now }
    ensures { IfOk result (λ wants. wants.items ≡ token_wants schema.now table settings.now news.now) }
{
    let mut wants = Vec::new(alloc);
    for new in news {
        push_key_wants(alloc, &mut wants, schema, &new.want)?;
    }
    let sorted = by_column(alloc, settings)?;
    push_all_settings(alloc, &mut wants, schema, table, sorted.as_slice())?;
    Ok(wants)
}

// Adds the tokens that settings want.
fn push_all_settings(
    alloc: Global,
    wants: &mut Vec<Want>,
    schema: &Schema,
    table: TableNo,
    settings: &[&(ColumnNo, Given)],
) -> Result<(), NoMemory>
    requires { AllByRecursion IsReadableSetting (map (λ setting. setting.now) settings.now) }
    ensures { OnOk result (wants.new.items ≡ wants.old.items ++ flat_map (setting_wants schema.now table) (map (λ setting. setting.now) settings.now)) }
{
    for setting in settings {
        push_setting_wants(alloc, wants, schema, table, setting)?;
    }
    Ok(())
}

// Adds the tokens that a setting wants.
fn push_setting_wants(
    alloc: Global,
    wants: &mut Vec<Want>,
    schema: &Schema,
    table: TableNo,
    setting: &(ColumnNo, Given),
) -> Result<(), NoMemory>
    requires { IsReadableSetting setting.now }
    ensures { OnOk result (wants.new.items ≡ wants.old.items ++ setting_wants schema.now table setting.now) }
{
    match &setting.1 {
        Given::Text(text) => {
            push_text_wants(
                alloc,
                wants,
                schema,
                table,
                Field::Column(setting.0),
                text.as_text(),
            )
        }
        _ => Ok(()),
    }
}

// Adds the tokens that the key of an added record wants.
fn push_key_wants(
    alloc: Global,
    wants: &mut Vec<Want>,
    schema: &Schema,
    want: &Want,
) -> Result<(), NoMemory>
    requires { IsReadableWant want.now }
    ensures { OnOk result (wants.new.items ≡ wants.old.items ++ key_wants schema.now want.now) }
{
    match &want.key {
        Some(Key::Text(text)) => {
            push_text_wants(alloc, wants, schema, want.table, Field::Key, text.as_text())
        }
        _ => Ok(()),
    }
}

// Adds the tokens that a field's text wants, for each index on the field in order of making.
fn push_text_wants(
    alloc: Global,
    wants: &mut Vec<Want>,
    schema: &Schema,
    table: TableNo,
    field: Field,
    text: &str,
) -> Result<(), NoMemory>
    ensures { OnOk result (wants.new.items ≡ wants.old.items ++ text_wants schema.now table field text.now) }
{
    for index in schema.indexes() {
        push_wants_on(alloc, wants, schema, table, field, text, *index)?;
    }
    Ok(())
}

// Adds the tokens that a field's text wants for an index, where that is on the field.
fn push_wants_on(
    alloc: Global,
    wants: &mut Vec<Want>,
    schema: &Schema,
    table: TableNo,
    field: Field,
    text: &str,
    index: (TableNo, ColumnNo),
) -> Result<(), NoMemory>
    ensures { OnOk result (wants.new.items ≡ wants.old.items ++ (if is_on schema.now table field index then index_wants schema.now text.now index else [])) }
{
    if is_on(schema, table, field, index) {
        push_index_wants(alloc, wants, schema, text, index)
    } else {
        Ok(())
    }
}

/// Adds the tokens of a text that an index wants in its lexicon, in the text's order.
pub(crate) fn push_index_wants(
    alloc: Global,
    wants: &mut Vec<Want>,
    schema: &Schema,
    text: &str,
    index: (TableNo, ColumnNo),
) -> Result<(), NoMemory>
    ensures { OnOk result (wants.new.items ≡ wants.old.items ++ index_wants schema.now text.now index) }
{
    match tokenizer_of(schema, index.0) {
        Some(Tokenizer::Delimit) => push_words(alloc, wants, index.0, text),
        Some(Tokenizer::Bigram) => push_bigrams(alloc, wants, index.0, text),
        None => Ok(()),
    }
}

// How a table cuts texts, where it is a lexicon.
fn tokenizer_of(schema: &Schema, table: TableNo) -> Option<Tokenizer>
    ensures { result ≡ option_and_then (λ home. home.tokenizer) (table_at schema.now table) }
{
    schema.def(table)?.tokenizer
}

// Adds the words of a text.
fn push_words(
    alloc: Global,
    wants: &mut Vec<Want>,
    table: TableNo,
    text: &str,
) -> Result<(), NoMemory>
    ensures { OnOk result (wants.new.items ≡ wants.old.items ++ map (token_want table) (tokens Tokenizer.Delimit text.now)) }
{
    for word in Delimit::new(text) {
        wants.push(token_want(alloc, table, word)?)?;
    }
    Ok(())
}

// Adds the bigrams of a text.
fn push_bigrams(
    alloc: Global,
    wants: &mut Vec<Want>,
    table: TableNo,
    text: &str,
) -> Result<(), NoMemory>
    ensures { OnOk result (wants.new.items ≡ wants.old.items ++ map (token_want table) (tokens Tokenizer.Bigram text.now)) }
{
    for bigram in Bigram::new(text) {
        wants.push(token_want(alloc, table, bigram)?)?;
    }
    Ok(())
}

// A wanted record of this token.
fn token_want(alloc: Global, table: TableNo, token: &str) -> Result<Want, NoMemory>
    ensures { IfOk result (λ want. want ≡ token_want table token.now) }
{
    let text = Bytes::from_slice(alloc, token.as_bytes())?;
    Ok(Want {
        table,
        key: Some(Key::Text(text)),
    })
}

// Whether an index is on a field.
fn is_on(schema: &Schema, table: TableNo, field: Field, index: (TableNo, ColumnNo)) -> bool
    ensures { result ≡ is_on schema.now table field index }
{
    index_fields(schema, table, index)
        .iter()
        .any(|other| is_same_field(field, *other))
}

// The fields of a table that an index reads.
fn index_fields(schema: &Schema, table: TableNo, index: (TableNo, ColumnNo)) -> &[Field]
    ensures { result.now ≡ index_fields schema.now table index }
{
    let Some(home) = schema.def(index.0) else {
        return &[];
    };
    match home.columns.get(index.1.0 as u64) {
        Some(column) => fields_read(table, &column.role),
        None => &[],
    }
}

// The fields of this table that a column is an index on.
fn fields_read(table: TableNo, role: &Role) -> &[Field]
    ensures { result.now ≡ fields_read table role.now }
{
    match role {
        Role::Index {
            target,
            sources,
            ..
        } if target.0 == table.0 => sources.as_slice(),
        _ => &[],
    }
}

// Whether two fields are one.
fn is_same_field(field: Field, other: Field) -> bool
    ensures { result ≡ is_same_field field other }
{
    match (field, other) {
        (Field::Id, Field::Id) | (Field::Key, Field::Key) => true,
        (Field::Column(column), Field::Column(other)) => column.0 == other.0,
        _ => false,
    }
}
