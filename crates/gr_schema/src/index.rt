// Which index is on a field, and how the field's texts are read.
ghost use Rattle.std.specs.Prelude.{◌≡◌, ◌≤◌, ◌<◌, ◌&&◌, IfSome, find, length};
ghost use Rattle.std.specs.List.{list_any, position};
ghost use Rattle.gr_base.specs.declared.limits.TheConstants.{MOST_SOURCES};
ghost use Rattle.gr_schema.specs.Fields.{is_same_field};
ghost use Rattle.gr_schema.specs.Index.{fields_read, first_index, how, index_by, index_fields, is_on, is_read, reads};

use crate::fields::is_same_field;
use crate::sources::stands;
use crate::{Role, Schema};
use gr_base::{ColumnNo, TableNo};
use gr_tokens::{How, Tokenizer};
use gr_values::Field;

impl Schema {
    /// The index made first on a field of a table; takes a time that grows with the number of index columns.
    pub fn first_index(&self, table: TableNo, field: Field) -> Option<(TableNo, ColumnNo)>
        ensures { result ≡ first_index self.now table field }
    {
        self.indexes()
            .iter()
            .copied()
            .find(|index| self.is_on(table, field, *index))
    }

    /// The index made first on a field of a lexicon that reads texts so, with the field's place among its sources, from 0.
    pub fn index_by(
        &self,
        table: TableNo,
        field: Field,
        how: How,
    ) -> Option<((TableNo, ColumnNo), u32)>
        ensures { result ≡ index_by self.now table field how }
    {
        let index = self.first_read(table, field, how)?;
        let place = place_of(self.index_fields(table, index), field)?;
        Some((index, place))
    }

    /// How a text field is read: by words where the index made first on it belongs to a lexicon with `TokenDelimit`, and by characters otherwise.
    pub fn how(&self, table: TableNo, field: Field) -> How
        ensures { result ≡ how self.now table field }
    {
        match self.first_index(table, field) {
            Some(index) if self.is_read(How::Words, index) => How::Words,
            _ => How::Chars,
        }
    }

    // The index made first on a field of a lexicon that reads texts so.
    fn first_read(&self, table: TableNo, field: Field, how: How) -> Option<(TableNo, ColumnNo)>
        ensures { result ≡ find (λ index. is_on self.now table field index && is_read self.now how index) self.now.indexes }
    {
        self.indexes().iter().copied().find(|index| self.is_on(table, field, *index)
            && self.is_read(how, *index))
    }

    // Whether an index is on a field.
    fn is_on(&self, table: TableNo, field: Field, index: (TableNo, ColumnNo)) -> bool
        ensures { result ≡ is_on self.now table field index }
    {
        stands(self.index_fields(table, index), field)
    }

    // The fields of a table that an index reads.
    fn index_fields(&self, table: TableNo, index: (TableNo, ColumnNo)) -> &[Field]
        ensures exact { result.now ≡ index_fields self.now table index }
        ensures few { length result.now ≤ MOST_SOURCES }
    {
        match self.column_at(index.0, index.1) {
            Some(column) => fields_read(&column.role, table),
            None => &[],
        }
    }

    // Whether an index belongs to a lexicon that reads texts so.
    fn is_read(&self, how: How, index: (TableNo, ColumnNo)) -> bool
        ensures { result ≡ is_read self.now how index }
    {
        match self.def(index.0) {
            Some(home) => match home.tokenizer {
                Some(tokenizer) => reads(how, tokenizer),
                None => false,
            },
            None => false,
        }
    }
}

// The fields of this table that a column is an index on.
fn fields_read(role: &Role, table: TableNo) -> &[Field]
    ensures { result.now ≡ fields_read table role.now }
{
    match role {
        Role::Index {
            target,
            sources,
            ..
        } if target.0 == table.0 => sources.as_slice(),
        _ => &[],
    }
}

// Whether a tokenizer's index reads texts so.
fn reads(how: How, tokenizer: Tokenizer) -> bool
    ensures { result ≡ reads how tokenizer }
{
    match how {
        How::Words => matches!(tokenizer, Tokenizer::Delimit),
        How::Chars => matches!(tokenizer, Tokenizer::Bigram),
    }
}

// The place of a field among these.
fn place_of(fields: &[Field], field: Field) -> Option<u32>
    requires { length fields.now ≤ MOST_SOURCES }
    ensures { result ≡ position (is_same_field field) fields.now }
{
    match position_of(fields, field) {
        Some(place) => Some(place as u32),
        None => None,
    }
}

fn position_of(fields: &[Field], field: Field) -> Option<usize>
    ensures exact { result ≡ position (is_same_field field) fields.now }
    ensures within { IfSome result (λ place. place < length fields.now) }
{
    fields.iter().position(|other| is_same_field(field, *other))
}
