// The puts that load data ask for.
use gr_base::ListOf;
use gr_db::Settings;
use gr_values::Key;

/// A record to be put.
#[derive(Drop)]
pub struct Put {
    /// Its key, where the table is keyed.
    pub key: Option<Key>,
    /// The cells that are set, in the order in which the row gives them.
    pub settings: Settings,
}

/// Records to be put, in order.
pub type Puts = ListOf<Put>;
