// What load data ask of a table.
ghost use Rattle.std.specs.Prelude.{◌≡◌, ◌∷◌, [], IfOk, IfSome, IsUtf8, Some, is_some, option_map, option_to_list, true};
ghost use Rattle.std.specs.List.{AllByRecursion};
ghost use Rattle.std.specs.Option.{option_copied};
ghost use Rattle.gr_db.specs.Entry.{IsPut};
ghost use Rattle.gr_schema.specs.Schema.{table_at};
ghost use Rattle.gr_schema.specs.declared.definition.TableDef.{TableDef};
ghost use Rattle.serde_json.specs.Data.{array};
ghost use Rattle.serde_json.specs.View.{items_view, view};
ghost use Rattle.gr_rows.specs.Inside.Loads.{IsLoad, Loads};
ghost use Rattle.gr_rows.specs.Inside.Places.{ArePlaces, names_in};
ghost use Rattle.gr_rows.specs.Inside.Targets.{IsTarget};
ghost use Rattle.gr_rows.specs.Rows.{after_first, header_of, rows_from, rows_headed, rows_in, rows_of};
ghost use Rattle.gr_schema.specs.Sound.{IsSound};

use crate::fault::refused;
use crate::json;
use crate::places::Places;
use crate::put::Puts;
use crate::target::Target;
use gr_base::{Failure, Fault, FaultKind, ListOf, NoMemory, TableNo};
use gr_schema::Schema;
use serde_json::Value;
use std::alloc::Global;

/// What load data ask for.
#[derive(Drop)]
pub struct LoadRows {
    /// The puts of the rows before the first that is refused.
    pub puts: Puts,
    /// The fault of the first row that is refused, or of the data.
    pub fault: Option<Fault>,
}

/// The puts that load data ask of a table, and the first fault: the rows before a refused one stay.
/// The names of an array's places are those that `columns` lists, or where it is not given those of a header.
/// The JSON is read once and its values are moved; the time is linear in the text.
pub fn rows(
    alloc: Global,
    schema: &Schema,
    table: TableNo,
    columns: Option<&str>,
    text: &str,
) -> Result<LoadRows, NoMemory>
    requires { is_some (table_at schema.now table) ≡ true }
    ensures exact { (home : TableDef) → table_at schema.now table ≡ Some home → IfOk result (λ rows. rows ≡ rows_of schema.now home (option_copied columns.entry) text.now) }
    ensures valid { IfOk result (λ rows. AllByRecursion (λ put. IsPut schema.now table put.key put.settings) rows.puts) }
    ensures text { IfOk result (λ rows. IfSome rows.fault (λ fault. IsUtf8 fault.name)) }
{
    let Some(home) = schema.def(table) else {
        unreachable!()
    };
    // The index columns, by which a schema tells that it is sound.
    let _indexes = schema.indexes();
    let target = Target {
        alloc,
        schema,
        table,
        home,
    };
    match target.load(columns, text) {
        Ok(rows) => Ok(rows),
        Err(Failure::Refused(fault)) => Ok(LoadRows {
            puts: ListOf::from_vec(Vec::new(alloc)),
            fault: Some(fault),
        }),
        Err(Failure::NoMemory) => Err(NoMemory),
    }
}

impl Target<'_> {
    // What load data ask for, or their fault where they are refused before the first row.
    fn load(&self, columns: Option<&str>, text: &str) -> Result<LoadRows, Failure<Fault>>
        requires there { table_at self.now.schema.now self.now.table ≡ Some self.now.home.now }
        requires sound { IsSound self.now.schema.now }
        ensures told { Loads result (rows_of self.now.schema.now self.now.home.now (option_copied columns.entry) text.now) }
        ensures valid { IfOk result (IsLoad self.now.schema.now self.now.table) }
    {
        if self.home.tokenizer.is_some() {
            return refused(
                self.alloc,
                FaultKind::LexiconReadOnly,
                self.home.name.as_text(),
            );
        }
        match json::array_of(self.alloc, text)? {
            Some(values) => self.rows_in(columns, values),
            None => refused(self.alloc, FaultKind::BadJson, ""),
        }
    }

    // What the elements of an array ask for, with the names that are listed or those of a header.
    fn rows_in(&self, columns: Option<&str>, values: Vec<Value>) -> Result<LoadRows, Failure<Fault>>
        requires { IsTarget self.now.schema.now self.now.table self.now.home.now }
        ensures told { Loads result (rows_in self.now.schema.now self.now.home.now (option_copied columns.entry) (items_view values.items)) }
        ensures valid { IfOk result (IsLoad self.now.schema.now self.now.table) }
    {
        match columns {
            Some(columns) => {
                let places = self.listed_places(columns)?;
                Ok(self.rows_from(Some(&places), values)?)
            }
            None => self.rows_headed(values),
        }
    }

    // What elements ask for of which the first may be a header.
    fn rows_headed(&self, mut values: Vec<Value>) -> Result<LoadRows, Failure<Fault>>
        requires { IsTarget self.now.schema.now self.now.table self.now.home.now }
        ensures told { Loads result (rows_headed self.now.schema.now self.now.home.now (header_of (items_view values.items)) (items_view values.items)) }
        ensures valid { IfOk result (IsLoad self.now.schema.now self.now.table) }
    {
        match take_header(&mut values) {
            Some(header) => {
                let places = self.header_places(header)?;
                Ok(self.rows_from(Some(&places), values)?)
            }
            None => Ok(self.rows_from(None, values)?),
        }
    }

    // What rows ask for, up to the first that is refused.
    fn rows_from(&self, places: Option<&Places>, values: Vec<Value>) -> Result<LoadRows, NoMemory>
        requires target { IsTarget self.now.schema.now self.now.table self.now.home.now }
        requires sound { IfSome (option_copied places) (ArePlaces self.now.schema.now self.now.home.now) }
        ensures exact { IfOk result (λ rows. rows ≡ rows_from self.now.schema.now self.now.home.now (option_map names_in (option_copied places.entry)) 1 (items_view values.items)) }
        ensures valid { IfOk result (IsLoad self.now.schema.now self.now.table) }
    {
        let mut puts = Vec::new(self.alloc);
        let mut row = 0;
        for value in values {
            row += 1;
            match self.row_put(places, row, value) {
                Ok(put) => puts.push(put)?,
                Err(Failure::Refused(fault)) => {
                    return Ok(LoadRows {
                        puts: ListOf::from_vec(puts),
                        fault: Some(fault),
                    });
                }
                Err(Failure::NoMemory) => return Err(NoMemory),
            }
        }
        Ok(LoadRows {
            puts: ListOf::from_vec(puts),
            fault: None,
        })
    }
}

// Takes the first element out, where it is a header.
fn take_header(values: &mut Vec<Value>) -> Option<Vec<Value>>
    ensures header { option_map (λ header. items_view header.items) result ≡ header_of (items_view values.old.items) }
    ensures others { IfSome result (λ header. items_view values.new.items ≡ after_first (items_view values.old.items)) }
    ensures same { result ≡ None → values.new.items ≡ values.old.items }
{
    match values.first() {
        Some(Value::Array(_)) => match values.remove(0) {
            Value::Array(header) => Some(header),
            _ => None,
        },
        _ => None,
    }
}
