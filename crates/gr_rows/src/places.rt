// What the places of an array stand for.
ghost use Rattle.std.specs.Prelude.{◌≡◌, ◌≤◌, ◌++◌, ◌∷◌, [], Err, IfOk, IfSome, Ok, if◌then◌else◌, is_some, length, nat_eq};
ghost use Rattle.std.specs.HashSet.{contains};
ghost use Rattle.gr_base.specs.Failure.{result_map};
ghost use Rattle.gr_base.specs.Fault.{fault_named};
ghost use Rattle.gr_base.specs.declared.fault.FaultKind.TheVariants.{BadRow};
ghost use Rattle.gr_rows.specs.Inside.Places.{ArePlaces, IsNamed, names_in};
ghost use Rattle.gr_rows.specs.Inside.Targets.{IsTarget};
ghost use Rattle.gr_rows.specs.Inside.Told.{Tells};
ghost use Rattle.gr_rows.specs.Names.{key_name, name_taken};
ghost use Rattle.gr_schema.specs.Schema.{SchemaDef};
ghost use Rattle.gr_schema.specs.declared.definition.TableDef.{TableDef};

use crate::fault::refused;
use crate::slot::Slot;
use crate::target::Target;
use gr_base::{Bytes, ColumnNo, Failure, Fault, FaultKind};
use gr_values::Shape;
use std::alloc::Global;
use std::collections::HashSet;

/// A data column that a place stands for.
#[derive(Drop)]
pub(crate) struct Named {
    /// The column's name.
    pub(crate) name: Bytes,
    /// The column.
    pub(crate) column: ColumnNo,
    /// The shape of its cells.
    pub(crate) shape: Shape,
}

/// What the places of an array stand for, each something else.
#[derive(Drop)]
pub(crate) struct Places {
    /// The place of the key, where it has one.
    pub(crate) key: Option<usize>,
    /// The columns of the other places, in order.
    pub(crate) columns: Vec<Named>,
    /// The numbers of these columns.
    pub(crate) taken: HashSet<u32>,
}

impl Places {
    /// No places.
    pub(crate) fn new(alloc: Global) -> Places
        ensures exact { names_in result ≡ [] }
        ensures sound { (schema : SchemaDef) (home : TableDef) → ArePlaces schema home result }
    {
        Places {
            key: None,
            columns: Vec::new(alloc),
            taken: HashSet::new(alloc),
        }
    }
}

impl Target<'_> {
    /// The places and one more, of this name. A name that stands for nothing is refused, and one that stands here already.
    pub(crate) fn with_name(&self, places: Places, name: &str) -> Result<Places, Failure<Fault>>
        requires target { IsTarget self.now.schema.now self.now.table self.now.home.now }
        requires sound { ArePlaces self.now.schema.now self.now.home.now places }
        ensures told { Tells (result_map names_in result) (result_map (λ taken. names_in places ++ taken ∷ []) (name_taken self.now.schema.now self.now.home.now (names_in places) name.now)) }
        ensures sound { IfOk result (ArePlaces self.now.schema.now self.now.home.now) }
    {
        match self.slot_named(name) {
            Some(Slot::Key) => with_key(self.alloc, places),
            Some(Slot::Column(column, shape)) => {
                let name = Bytes::from_slice(self.alloc, name.as_bytes())?;
                with_column(
                    self.alloc,
                    places,
                    Named {
                        name,
                        column,
                        shape,
                    },
                )
            }
            None => refused(self.alloc, FaultKind::NoSuchColumn, name),
        }
    }
}

// The places, and the key at the next one.
fn with_key(alloc: Global, mut places: Places) -> Result<Places, Failure<Fault>>
    ensures told { Tells (result_map names_in result) (if is_some places.key then Err (fault_named BadRow []) else Ok (names_in places ++ key_name ∷ [])) }
    ensures sound { (schema : SchemaDef) (home : TableDef) → ArePlaces schema home places → IfOk result (ArePlaces schema home) }
{
    if places.key.is_some() {
        return refused(alloc, FaultKind::BadRow, "");
    }
    places.key = Some(places.columns.len());
    Ok(places)
}

// The places, and a column at the next one.
fn with_column(alloc: Global, mut places: Places, named: Named) -> Result<Places, Failure<Fault>>
    requires { IfSome places.key (λ place. place ≤ length places.columns.items) }
    ensures told { Tells (result_map names_in result) (if contains nat_eq places.taken named.column.0 then Err (fault_named BadRow []) else Ok (names_in places ++ named.name ∷ [])) }
    ensures sound { (schema : SchemaDef) (home : TableDef) → ArePlaces schema home places → IsNamed schema home named → IfOk result (ArePlaces schema home) }
{
    if !places.taken.insert(named.column.0)? {
        return refused(alloc, FaultKind::BadRow, "");
    }
    places.columns.push(named)?;
    Ok(places)
}
