// A schema that states share.
ghost use Rattle.std.specs.Prelude.{◌≡◌, IfOk};
ghost use Rattle.std.specs.Arc.{arc_value};
ghost use Rattle.gr_schema.specs.Schema.{no_tables};

use gr_base::NoMemory;
use gr_schema::Schema;
use std::alloc::Global;
use std::marker::Model;
use std::sync::Arc;

/// A schema with one or more owners. The one without tables takes no memory.
#[derive(Drop)]
pub(crate) struct SharedSchema {
    none: Schema,
    shared: Option<Arc<Schema>>,
}

impl Model for SharedSchema {
    ghost use Rattle.std.specs.Prelude.{◌≡◌};
    ghost use Rattle.gr_root.specs.Inside.Shared.{schema_of};
    ghost use Rattle.gr_schema.specs.Schema.{SchemaDef, no_tables};

    ghost Value = { SchemaDef };

    ghost view = { λ schema. schema_of schema.shared };

    ghost invariant = { λ schema. schema.none ≡ no_tables };
}

impl SharedSchema {
    /// The schema without tables.
    pub(crate) fn new() -> SharedSchema
        ensures { result ≡ no_tables }
    {
        SharedSchema {
            none: Schema::new(),
            shared: None,
        }
    }

    /// A schema with one owner.
    pub(crate) fn of(alloc: Global, schema: Schema) -> Result<SharedSchema, NoMemory>
        ensures { IfOk result (λ made. made ≡ schema) }
    {
        Ok(SharedSchema {
            none: Schema::new(),
            shared: Some(Arc::new(alloc, schema)?),
        })
    }

    /// The schema, lent.
    pub(crate) fn get(&self) -> &Schema
        ensures { result.now ≡ self.now }
    {
        match &self.shared {
            Some(schema) => schema,
            None => &self.none,
        }
    }

    /// One more owner. It fails only where the count of owners is full.
    pub(crate) fn try_clone(&self) -> Result<SharedSchema, NoMemory>
        ensures { IfOk result (λ copy. copy ≡ self.now) }
    {
        let shared = match &self.shared {
            Some(schema) => Some(Arc::try_clone(schema)?),
            None => None,
        };
        Ok(SharedSchema {
            none: Schema::new(),
            shared,
        })
    }
}
