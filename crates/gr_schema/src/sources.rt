// The fields that an index reads.
ghost use Rattle.std.specs.Prelude.{◌≡◌, ◌∷◌, [], None, Some, IfOk, if◌then◌else◌};
ghost use Rattle.std.specs.List.{list_any, slice_split};
ghost use Rattle.gr_base.specs.declared.limits.TheConstants.{MOST_SOURCES};
ghost use Rattle.gr_schema.specs.Fields.{is_same_field};
ghost use Rattle.gr_schema.specs.Inside.Sources.{field_added, source_added, sources_added};
ghost use Rattle.gr_schema.specs.Schema.{is_lexicon};
ghost use Rattle.gr_schema.specs.Wishes.{are_sources, home_of, is_comma, source_named, sources_of};

use crate::cut::cut;
use crate::fields::{field_named, is_reference_field, is_same_field, is_text_field};
use crate::table::Table;
use crate::{Fields, TableDef};
use gr_base::{ListOf, MOST_SOURCES, NoMemory, TableNo};
use gr_values::Field;
use std::alloc::Global;

/// The tables of an index: the one that has it, with its number, and the one that it is over.
#[derive(Clone, Copy)]
pub(crate) struct Sides<'a> {
    /// The number of the table that has it.
    pub(crate) no: TableNo,
    /// The table that has it.
    pub(crate) home: &'a Table,
    /// The table that it is over.
    pub(crate) target: &'a Table,
}

// The fields that a text lists, where the index can read each, none stands twice, and they are not too many.
pub(crate) fn read_sources(
    alloc: Global,
    sides: Sides<'_>,
    section: bool,
    source: &[u8],
) -> Result<Option<Fields>, NoMemory>
    ensures { IfOk result (λ read. read ≡
        (if are_sources (home_of sides.entry.no sides.entry.home.now) sides.entry.target.now section source.now
        then Some (sources_of (home_of sides.entry.no sides.entry.home.now) sides.entry.target.now source.now)
        else None)) }
{
    let most = most_sources(section);
    if is_lexicon(sides.home.def()) {
        listed(alloc, sides, most, source)
    } else {
        with_last(sides, most, Vec::new(alloc), source)
    }
}

// How many sources an index has at most.
fn most_sources(section: bool) -> usize
    ensures { result ≡ (if section then MOST_SOURCES else 1) }
{
    if section { MOST_SOURCES } else { 1 }
}

// The fields that a text lists, with commas between them.
fn listed(
    alloc: Global,
    sides: Sides<'_>,
    most: usize,
    source: &[u8],
) -> Result<Option<Fields>, NoMemory>
    ensures { IfOk result (λ read. read ≡
        sources_added (home_of sides.entry.no sides.entry.home.now) sides.entry.target.now most [] (slice_split is_comma source.now)) }
{
    let mut fields = Vec::new(alloc);
    let mut rest = source;
    'names: while let Some((name, after)) = cut(rest, b',') {
        if !add_source(sides, most, &mut fields, name)? {
            return Ok(None);
        }
        rest = after;
    }
    with_last(sides, most, fields, rest)
}

// The fields and the one of this name.
fn with_last(
    sides: Sides<'_>,
    most: usize,
    fields: Vec<Field>,
    name: &[u8],
) -> Result<Option<Fields>, NoMemory>
    ensures { IfOk result (λ read. read ≡
        sources_added (home_of sides.entry.no sides.entry.home.now) sides.entry.target.now most fields.items (name.now ∷ [])) }
{
    let mut fields = fields;
    if add_source(sides, most, &mut fields, name)? {
        Ok(Some(ListOf::from_vec(fields)))
    } else {
        Ok(None)
    }
}

// Whether records are the tokens of texts.
pub(crate) fn is_lexicon(table: &TableDef) -> bool
    ensures { result ≡ is_lexicon table.now }
{
    table.tokenizer.is_some()
}

// Adds the field of this name, where the index can read it, it does not stand there yet, and there is room.
fn add_source(
    sides: Sides<'_>,
    most: usize,
    fields: &mut Vec<Field>,
    name: &[u8],
) -> Result<bool, NoMemory>
    ensures { IfOk result (λ added.
        (if added then Some fields.new.items else None)
        ≡ source_added (home_of sides.entry.no sides.entry.home.now) sides.entry.target.now most fields.old.items name.now) }
{
    match source_named(sides, name) {
        Some(field) => add_field(most, fields, field),
        None => Ok(false),
    }
}

// Adds a field that does not stand there yet, where there is room.
fn add_field(most: usize, fields: &mut Vec<Field>, field: Field) -> Result<bool, NoMemory>
    ensures { IfOk result (λ added.
        (if added then Some fields.new.items else None) ≡ field_added most fields.old.items field) }
{
    if stands(fields.as_slice(), field) || most <= fields.len() {
        return Ok(false);
    }
    fields.push(field)?;
    Ok(true)
}

// Whether a field is among these.
pub(crate) fn stands(fields: &[Field], field: Field) -> bool
    ensures { result ≡ list_any (is_same_field field) fields.now }
{
    fields.iter().any(|other| is_same_field(field, *other))
}

// The field of the target that a source names, where the index can read it.
fn source_named(sides: Sides<'_>, name: &[u8]) -> Option<Field>
    ensures { result ≡ source_named (home_of sides.entry.no sides.entry.home.now) sides.entry.target.now name.now }
{
    let field = field_named(sides.target, name)?;
    let target = sides.target.def();
    let fits = if is_lexicon(sides.home.def()) {
        is_text_field(target, field)
    } else {
        is_reference_field(sides.no, target, field)
    };
    if fits { Some(field) } else { None }
}
