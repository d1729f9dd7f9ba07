// The six commands.
ghost use Rattle.std.specs.Prelude.{◌≡◌};
ghost use Rattle.gr_cmdline.specs.Names.{verb_name, verb_named};

/// What a command does.
#[derive(Clone, Copy, Debug, PartialEq, Eq)]
pub enum Verb {
    /// Makes a table.
    TableCreate,
    /// Makes a column.
    ColumnCreate,
    /// Puts records.
    Load,
    /// Removes records.
    Delete,
    /// Finds records.
    Select,
    /// Prints the commands that make the same database.
    Dump,
}

/// All commands.
static VERBS: [Verb; 6] = [
    Verb::TableCreate,
    Verb::ColumnCreate,
    Verb::Load,
    Verb::Delete,
    Verb::Select,
    Verb::Dump,
];

impl Verb {
    /// The name by which a line asks for it.
    pub fn name(self) -> &'static str
        ensures { result.now ≡ verb_name self }
    {
        match self {
            Verb::TableCreate => "table_create",
            Verb::ColumnCreate => "column_create",
            Verb::Load => "load",
            Verb::Delete => "delete",
            Verb::Select => "select",
            Verb::Dump => "dump",
        }
    }
}

/// The command of this name.
pub(crate) fn verb_named(name: &str) -> Option<Verb>
    ensures { result ≡ verb_named name.now }
{
    VERBS.iter().copied().find(|verb| verb.name() == name)
}
