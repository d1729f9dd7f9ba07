// A state: a journal, and the schema and the tables that it made.
ghost use Rattle.std.specs.Prelude.{◌≡◌, ◌+◌, [], Some, IfOk, min};
ghost use Rattle.std.specs.Arc.{arc_value};
ghost use Rattle.std.specs.Option.{option_map};
ghost use Rattle.gr_base.specs.Limits.{IsInRange};
ghost use Rattle.gr_db.specs.Accepted.{IsAccepted};
ghost use Rattle.gr_db.specs.Apply.{replay};
ghost use Rattle.gr_expr.specs.Tables.{cell_at, records_of};
ghost use Rattle.gr_db.specs.Entry.{IsValid};
ghost use Rattle.gr_db.specs.Fitting.{IsFitting};
ghost use Rattle.gr_root.specs.Root.{Applies, HoldsText, merges_in};
ghost use Rattle.gr_schema.specs.Paths.{key_type};
ghost use Rattle.gr_table.specs.Masks.{AreWithPrefix};
ghost use Rattle.gr_values.specs.View.{shown};
ghost use Rattle.gr_values.specs.declared.data_type.DataType.{DataType};

use crate::changing::{journal_full, made, tell_sound};
use crate::make::Places;
use crate::shared_schema::SharedSchema;
use gr_base::{ColumnNo, Failure, Fault, Ids, Limits, NoMemory, RecordId, Steps, TableNo};
use gr_db::{Entry, Journal};
use gr_expr::Rows;
use gr_pvec::PVec;
use gr_schema::Schema;
use gr_table::TableRecords;
use gr_values::{CellView, Key};
use std::alloc::Global;
use std::marker::Model;
use std::sync::Arc;

/// A state that never changes, which contracts see as its limits and its journal. A state with one entry more shares with this one all that the entry does not
/// change.
#[derive(Drop)]
pub struct Root {
    limits: Limits,
    journal: Journal,
    merges: u64,
    schema: SharedSchema,
    pub(crate) tables: PVec<TableRecords>,
    pub(crate) touched: PVec<Places>,
}

impl Model for Root {
    ghost use Rattle.gr_db.specs.contracts.shared_expr.SharedExpr as shared;
    ghost use Rattle.gr_root.specs.Root.{Rooted};
    ghost use Rattle.std.specs.Coded.{codes};

    ghost Value = { Rooted };

    ghost coded = { Prim.hlevel (codes, shared.the_row.coded) };

    ghost use Rattle.gr_root.specs.Inside.Sound.{IsSound};

    ghost view = { λ root. record { limits = root.limits; journal = root.journal } };

    ghost invariant = { IsSound };
}

impl Root {
    /// The state of a journal without entries; takes no memory.
    pub fn empty(limits: Limits) -> Root
        requires { IsInRange limits }
        ensures { result ≡ record { limits = limits; journal = [] } }
    {
        Root {
            limits,
            journal: Journal::new(),
            merges: 0,
            schema: SharedSchema::new(),
            tables: PVec::new(),
            touched: PVec::new(),
        }
    }

    /// The limits that it was made with.
    pub fn limits(&self) -> Limits
        ensures value { result ≡ self.now.limits }
        ensures in_range { IsInRange self.now.limits }
    {
        self.limits
    }

    /// Its journal, lent.
    pub fn journal(&self) -> &Journal
        ensures value { result.now ≡ self.now.journal }
        ensures accepted { IsAccepted self.now.limits self.now.journal }
    {
        &self.journal
    }

    /// Its schema, lent.
    pub fn schema(&self) -> &Schema
        ensures exact { result.now ≡ (replay self.now.journal).schema }
        ensures fitting { IsFitting (replay self.now.journal) }
    {
        let schema = self.schema.get();
        tell_sound(schema);
        schema
    }

    /// How many entries of its journal are merges.
    pub fn merges(&self) -> u64
        ensures { result ≡ merges_in self.now.journal }
    {
        self.merges
    }

    /// The state with one entry more, or the first fault of the entry; this state stays as it was.
    /// It takes the time of a path down the trees for each record that the entry adds or changes, and shares the rest.
    pub fn applied(&self, alloc: Global, entry: Arc<Entry>) -> Result<Root, Failure<Fault>>
        requires valid { IsValid (replay self.now.journal).schema (arc_value entry).change }
        requires text { HoldsText (arc_value entry).change }
        ensures { Applies self.now (arc_value entry) result }
    {
        tell_sound(self.schema.get());
        let made = match made(
            alloc,
            self.limits,
            &self.schema,
            &self.tables,
            &entry.change,
        ) {
            Ok(made) => made,
            Err(failure) => return Err(failure),
        };
        tell_sound(made.schema.get());
        if self.journal.len() - self.merges == self.limits.journal {
            return Err(Failure::Refused(journal_full(alloc)?));
        }
        let places = Arc::new(alloc, made.touched)?;
        let touched = self.touched.pushed(alloc, places)?;
        let journal = self.journal.pushed(alloc, entry)?;
        Ok(Root {
            limits: self.limits,
            journal,
            merges: self.merges,
            schema: made.schema,
            tables: made.tables,
            touched,
        })
    }

    /// The answer of `cell`, with one step.
    pub fn read(
        &self,
        table: TableNo,
        id: RecordId,
        column: ColumnNo,
        steps: &mut Steps,
    ) -> Option<CellView<'_>>
        ensures cell { option_map shown result ≡ cell_at (replay self.now.journal).tables table id column }
        ensures step { steps.new ≡ min (steps.old + 1) u64.MAX }
    {
        steps.tick();
        self.cell(table, id, column)
    }

    /// The ids of a table's records whose key begins with the prefix, each once, in ascending order.
    pub fn prefix(&self, alloc: Global, table: TableNo, prefix: &[u8]) -> Result<Ids, NoMemory>
        requires { key_type (replay self.now.journal).schema table ≡ Some DataType.ShortText }
        ensures { IfOk result (λ ids. AreWithPrefix (records_of (replay self.now.journal).tables table) prefix.now ids) }
    {
        match self.tables.get(table.0 as u64) {
            Some(found) => found.prefix(alloc, prefix),
            None => unreachable!(),
        }
    }
}

impl Rows for Root {
    ghost use Rattle.gr_db.specs.Apply.{replay};

    ghost tables = { λ root. (replay root.journal).tables };

    fn is_alive(&self, table: TableNo, id: RecordId) -> bool {
        match self.tables.get(table.0 as u64) {
            Some(found) => found.is_alive(id),
            None => false,
        }
    }

    fn key(&self, table: TableNo, id: RecordId) -> Option<&Key> {
        match self.tables.get(table.0 as u64) {
            Some(found) => found.key(id),
            None => None,
        }
    }

    fn cell(&self, table: TableNo, id: RecordId, column: ColumnNo) -> Option<CellView<'_>> {
        match self.tables.get(table.0 as u64) {
            Some(found) => found.cell(id, column),
            None => None,
        }
    }

    fn find(&self, table: TableNo, key: &Key) -> Option<RecordId> {
        match self.tables.get(table.0 as u64) {
            Some(found) => found.find(key),
            None => None,
        }
    }

    fn last_id(&self, table: TableNo) -> RecordId {
        match self.tables.get(table.0 as u64) {
            Some(found) => RecordId(found.given()),
            None => RecordId(0),
        }
    }
}
