// Names with their numbers, for look-ups in a time that does not grow with how many there are.
ghost use Rattle.std.specs.Prelude.{◌≡◌, None, IfOk};
ghost use Rattle.std.specs.FinMap.{empty, get, insert};
ghost use Rattle.std.specs.Option.{option_map};
ghost use Rattle.gr_schema.specs.Inside.Names.{record_id};

use gr_base::{Bytes, KeyTable, NoMemory, RecordId};
use gr_hash_keys::HashKeys;
use std::alloc::Global;
use std::marker::Model;
use std::sync::Arc;

/// A finite map from names to numbers. A changed map shares all but a path with the old one, which stays.
#[derive(Drop)]
pub(crate) struct Names {
    keys: Option<Arc<HashKeys>>,
}

impl Model for Names {
    ghost use Rattle.std.specs.Coded.{coded_list, coded_ℕ};
    ghost use Rattle.std.specs.FinMap as map;
    ghost use Rattle.gr_base.specs.Keys.{KeyMap};
    ghost use Rattle.gr_schema.specs.Inside.Names.{keys_of, record_code};

    ghost Value = { KeyMap };

    ghost coded = { map.code (coded_list coded_ℕ) record_code };

    ghost view = { λ names. keys_of names.keys };
}

impl Names {
    /// No names; takes no memory.
    pub(crate) fn new() -> Names
        ensures { result ≡ empty }
    {
        Names { keys: None }
    }

    /// The number of a name.
    pub(crate) fn find(&self, name: &[u8]) -> Option<u32>
        ensures { result ≡ option_map (λ id. id.0) (get self.now name.now) }
    {
        match &self.keys {
            Some(keys) => Some(keys.find(name)?.0),
            None => None,
        }
    }

    /// The names and one more, which must not be there yet.
    pub(crate) fn added(&self, alloc: Global, name: Bytes, number: u32) -> Result<Names, NoMemory>
        requires { get self.now name ≡ None }
        ensures { IfOk result (λ names. names ≡ insert self.now name (record_id number)) }
    {
        let keys = match &self.keys {
            Some(keys) => keys.added(alloc, name, RecordId(number))?,
            None => HashKeys::new().added(alloc, name, RecordId(number))?,
        };
        Ok(Names {
            keys: Some(Arc::new(alloc, keys)?),
        })
    }

    /// The same names once more.
    pub(crate) fn try_clone(&self) -> Result<Names, NoMemory>
        ensures { IfOk result (λ names. names ≡ self.now) }
    {
        match &self.keys {
            Some(keys) => Ok(Names {
                keys: Some(Arc::try_clone(keys)?),
            }),
            None => Ok(Names { keys: None }),
        }
    }
}
