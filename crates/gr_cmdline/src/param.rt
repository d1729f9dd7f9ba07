// The parameters of the commands, and their names.
ghost use Rattle.std.specs.Prelude.{◌≡◌, option_map};
ghost use Rattle.gr_cmdline.specs.Names.{has_name, is_same, number_of, other_name, param_name};

/// What an argument speaks of.
#[derive(Clone, Copy, Debug, PartialEq, Eq)]
pub enum Param {
    /// `name`: of a new table or column.
    Name = 0,
    /// `flags`.
    Flags = 1,
    /// `key_type`.
    KeyType = 2,
    /// `value_type`.
    ValueType = 3,
    /// `default_tokenizer`.
    DefaultTokenizer = 4,
    /// `normalizer`.
    Normalizer = 5,
    /// `token_filters`.
    TokenFilters = 6,
    /// `table`.
    Table = 7,
    /// `type`: of a new column.
    ColumnType = 8,
    /// `source`.
    Source = 9,
    /// `values`: load data.
    Values = 10,
    /// `columns`.
    Columns = 11,
    /// `ifexists`.
    Ifexists = 12,
    /// `input_type`.
    InputType = 13,
    /// `key`.
    Key = 14,
    /// `id`.
    Id = 15,
    /// `filter`.
    Filter = 16,
    /// `match_columns`.
    MatchColumns = 17,
    /// `query`.
    Query = 18,
    /// `sort_keys`, and `sortby`.
    SortKeys = 19,
    /// `output_columns`.
    OutputColumns = 20,
    /// `offset`.
    Offset = 21,
    /// `limit`.
    Limit = 22,
    /// `drilldown`.
    Drilldown = 23,
    /// `drilldown_sort_keys`, and `drilldown_sortby`.
    DrilldownSortKeys = 24,
    /// `drilldown_output_columns`.
    DrilldownOutputColumns = 25,
    /// `drilldown_offset`.
    DrilldownOffset = 26,
    /// `drilldown_limit`.
    DrilldownLimit = 27,
    /// `cache`: taken, and changes nothing.
    Cache = 28,
    /// `match_escalation_threshold`: taken, and changes nothing.
    MatchEscalationThreshold = 29,
    /// `command_version`.
    CommandVersion = 30,
    /// `output_type`.
    OutputType = 31,
}

impl Param {
    /// Its own name.
    pub fn name(self) -> &'static str
        ensures { result.now ≡ param_name self }
    {
        match self {
            Param::Name => "name",
            Param::Flags => "flags",
            Param::KeyType => "key_type",
            Param::ValueType => "value_type",
            Param::DefaultTokenizer => "default_tokenizer",
            Param::Normalizer => "normalizer",
            Param::TokenFilters => "token_filters",
            Param::Table => "table",
            Param::ColumnType => "type",
            Param::Source => "source",
            Param::Values => "values",
            Param::Columns => "columns",
            Param::Ifexists => "ifexists",
            Param::InputType => "input_type",
            Param::Key => "key",
            Param::Id => "id",
            Param::Filter => "filter",
            Param::MatchColumns => "match_columns",
            Param::Query => "query",
            Param::SortKeys => "sort_keys",
            Param::OutputColumns => "output_columns",
            Param::Offset => "offset",
            Param::Limit => "limit",
            Param::Drilldown => "drilldown",
            Param::DrilldownSortKeys => "drilldown_sort_keys",
            Param::DrilldownOutputColumns => "drilldown_output_columns",
            Param::DrilldownOffset => "drilldown_offset",
            Param::DrilldownLimit => "drilldown_limit",
            Param::Cache => "cache",
            Param::MatchEscalationThreshold => "match_escalation_threshold",
            Param::CommandVersion => "command_version",
            Param::OutputType => "output_type",
        }
    }

    /// Its older name, where it has one.
    fn other_name(self) -> Option<&'static str>
        ensures { option_map (λ name. name.now) result ≡ other_name self }
    {
        match self {
            Param::SortKeys => Some("sortby"),
            Param::DrilldownSortKeys => Some("drilldown_sortby"),
            _ => None,
        }
    }

    /// Whether an argument of this name speaks of it.
    pub(crate) fn has_name(self, name: &str) -> bool
        ensures { result ≡ has_name self name.now }
    {
        if self.name() == name {
            return true;
        }
        match self.other_name() {
            Some(other) => other == name,
            None => false,
        }
    }

    /// Its place among all parameters.
    fn number(self) -> u8
        ensures { result ≡ number_of self }
    {
        self as u8
    }

    /// Whether two are one.
    pub(crate) fn is_same(self, other: Param) -> bool
        ensures { result ≡ is_same self other }
    {
        self.number() == other.number()
    }
}
