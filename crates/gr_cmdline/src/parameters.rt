// Which parameters each command takes, by place and by name, and which it must be given.
ghost use Rattle.std.specs.Prelude.{◌≡◌, true, find};
ghost use Rattle.gr_cmdline.specs.Names.{has_name};
ghost use Rattle.gr_cmdline.specs.Inside.Distinct.{all_names, are_distinct};
ghost use Rattle.gr_cmdline.specs.Parameters.{by_name, order, param_named, param_placed, required};

use super::{Param, Verb};

static TABLE_CREATE_ORDER: [Param; 7] = [
    Param::Name,
    Param::Flags,
    Param::KeyType,
    Param::ValueType,
    Param::DefaultTokenizer,
    Param::Normalizer,
    Param::TokenFilters,
];

static COLUMN_CREATE_ORDER: [Param; 5] = [
    Param::Table,
    Param::Name,
    Param::Flags,
    Param::ColumnType,
    Param::Source,
];

static LOAD_ORDER: [Param; 5] = [
    Param::Values,
    Param::Table,
    Param::Columns,
    Param::Ifexists,
    Param::InputType,
];

static DELETE_ORDER: [Param; 4] = [Param::Table, Param::Key, Param::Id, Param::Filter];

static SELECT_ORDER: [Param; 4] = [
    Param::Table,
    Param::MatchColumns,
    Param::Query,
    Param::Filter,
];

static SELECT_BY_NAME: [Param; 13] = [
    Param::SortKeys,
    Param::OutputColumns,
    Param::Offset,
    Param::Limit,
    Param::Drilldown,
    Param::DrilldownSortKeys,
    Param::DrilldownOutputColumns,
    Param::DrilldownOffset,
    Param::DrilldownLimit,
    Param::Cache,
    Param::MatchEscalationThreshold,
    Param::CommandVersion,
    Param::OutputType,
];

static EVERY_BY_NAME: [Param; 2] = [Param::CommandVersion, Param::OutputType];

static NAME_REQUIRED: [Param; 1] = [Param::Name];

static COLUMN_REQUIRED: [Param; 3] = [Param::Table, Param::Name, Param::ColumnType];

static TABLE_REQUIRED: [Param; 1] = [Param::Table];

static NONE: [Param; 0] = [];

impl Verb {
    /// The parameters of the values that stand without a name, in order.
    pub(crate) fn order(self) -> &'static [Param]
        ensures { result.now ≡ order self }
    {
        match self {
            Verb::TableCreate => &TABLE_CREATE_ORDER,
            Verb::ColumnCreate => &COLUMN_CREATE_ORDER,
            Verb::Load => &LOAD_ORDER,
            Verb::Delete => &DELETE_ORDER,
            Verb::Select => &SELECT_ORDER,
            Verb::Dump => &NONE,
        }
    }

    /// The parameters that are given by name alone.
    pub(crate) fn by_name(self) -> &'static [Param]
        ensures { result.now ≡ by_name self }
    {
        match self {
            Verb::Select => &SELECT_BY_NAME,
            _ => &EVERY_BY_NAME,
        }
    }

    /// The parameters that must be given, in the order in which they are missed.
    pub(crate) fn required(self) -> &'static [Param]
        ensures { result.now ≡ required self }
    {
        match self {
            Verb::TableCreate => &NAME_REQUIRED,
            Verb::ColumnCreate => &COLUMN_REQUIRED,
            Verb::Load | Verb::Delete | Verb::Select => &TABLE_REQUIRED,
            Verb::Dump => &NONE,
        }
    }

    /// The parameter of this name. No name stands twice among a command's parameters, so no parameter does.
    pub(crate) fn param_named(self, name: &str) -> Option<Param>
        ensures value { result ≡ param_named self name.now }
        ensures distinct { are_distinct (all_names self) ≡ true }
    {
        match first_named(self.order(), name) {
            Some(param) => Some(param),
            None => first_named(self.by_name(), name),
        }
    }

    /// The parameter of the value at this place among those without a name, counted from 0.
    pub(crate) fn param_placed(self, place: usize) -> Option<Param>
        ensures { result ≡ param_placed self place }
    {
        self.order().get(place).copied()
    }
}

/// The first of these parameters that has this name.
fn first_named(params: &[Param], name: &str) -> Option<Param>
    ensures { result ≡ find (λ param. has_name param name.now) params.now }
{
    params.iter().copied().find(|param| param.has_name(name))
}
