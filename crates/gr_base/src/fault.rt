// Faults, as replies show them.
ghost use Rattle.std.specs.Prelude.{◌≡◌, ◌++◌, IfOk, OnOk, IsUtf8, string_bytes};
ghost use Rattle.gr_base.specs.Fault.{code_of, fault_named, fault_text, labelled, name_of, spaced};

use super::{Bytes, NoMemory};
use std::alloc::Global;
use std::fmt::Write;

/// What a command was refused for. The numbers are those that replies show.
#[derive(Clone, Copy, Debug, PartialEq, Eq)]
pub enum FaultKind {
    /// A line, or a line of load data, has more bytes than the limit.
    LineTooLong = 1,
    /// A line, or load data, is not UTF-8.
    NotText = 2,
    /// A line's words cannot be read.
    BadLine = 3,
    /// The command's name is none of the six.
    UnknownCommand = 4,
    /// A name is no parameter of the command, or there are too many values.
    UnknownArgument = 5,
    /// A parameter is given twice.
    RepeatedArgument = 6,
    /// A required parameter is not given.
    MissingArgument = 7,
    /// The file ends inside load data.
    UnfinishedLoad = 8,
    /// A name breaks the rule for names.
    BadName = 9,
    /// A name is reserved, or stands already.
    NameTaken = 10,
    /// No table has this name.
    NoSuchTable = 11,
    /// No column has this name.
    NoSuchColumn = 12,
    /// The flags are none that this command takes.
    BadFlags = 13,
    /// The type is none that stands here.
    BadType = 14,
    /// The source of a column cannot be one.
    BadSource = 15,
    /// A value is of another kind than is taken here.
    BadValue = 16,
    /// A whole number is outside its type's range.
    OutOfRange = 17,
    /// A text or a vector is above its limit.
    TooLong = 18,
    /// A number is no whole number of 64 bits.
    FloatRefused = 19,
    /// Load data cannot be read as a JSON array.
    BadJson = 20,
    /// An element of load data is no row.
    BadRow = 21,
    /// A row of a keyed table has no key.
    MissingKey = 22,
    /// A key is empty.
    EmptyKey = 23,
    /// A key is given for a keyless table.
    KeyGiven = 24,
    /// A lexicon's records come from tokens alone.
    LexiconReadOnly = 25,
    /// The record to be deleted is not there.
    NoSuchRecord = 26,
    /// A query's text is no sentence of its grammar.
    BadQuery = 27,
    /// A script's text is no sentence of its grammar.
    BadScript = 28,
    /// A text nests more than 64 deep.
    TooDeep = 29,
    /// A number cannot be read, or is out of its range.
    BadNumber = 30,
    /// An operand is of a kind that its operator does not take.
    TypeMismatch = 31,
    /// A query's word has no column to be searched in.
    NoMatchColumn = 32,
    /// Rows cannot be sorted by this path.
    BadSortKey = 33,
    /// No id is left in a table.
    TableFull = 34,
    /// The journal has as many entries as it may have.
    JournalFull = 35,
}

impl FaultKind {
    /// The number that a reply shows, 1 to 35.
    pub fn code(self) -> u8
        ensures { result ≡ code_of self }
    {
        self as u8
    }

    /// The name that a reply shows.
    pub fn name(self) -> &'static str
        ensures { result.now ≡ name_of self }
    {
        match self {
            FaultKind::LineTooLong => "LineTooLong",
            FaultKind::NotText => "NotText",
            FaultKind::BadLine => "BadLine",
            FaultKind::UnknownCommand => "UnknownCommand",
            FaultKind::UnknownArgument => "UnknownArgument",
            FaultKind::RepeatedArgument => "RepeatedArgument",
            FaultKind::MissingArgument => "MissingArgument",
            FaultKind::UnfinishedLoad => "UnfinishedLoad",
            FaultKind::BadName => "BadName",
            FaultKind::NameTaken => "NameTaken",
            FaultKind::NoSuchTable => "NoSuchTable",
            FaultKind::NoSuchColumn => "NoSuchColumn",
            FaultKind::BadFlags => "BadFlags",
            FaultKind::BadType => "BadType",
            FaultKind::BadSource => "BadSource",
            FaultKind::BadValue => "BadValue",
            FaultKind::OutOfRange => "OutOfRange",
            FaultKind::TooLong => "TooLong",
            FaultKind::FloatRefused => "FloatRefused",
            FaultKind::BadJson => "BadJson",
            FaultKind::BadRow => "BadRow",
            FaultKind::MissingKey => "MissingKey",
            FaultKind::EmptyKey => "EmptyKey",
            FaultKind::KeyGiven => "KeyGiven",
            FaultKind::LexiconReadOnly => "LexiconReadOnly",
            FaultKind::NoSuchRecord => "NoSuchRecord",
            FaultKind::BadQuery => "BadQuery",
            FaultKind::BadScript => "BadScript",
            FaultKind::TooDeep => "TooDeep",
            FaultKind::BadNumber => "BadNumber",
            FaultKind::TypeMismatch => "TypeMismatch",
            FaultKind::NoMatchColumn => "NoMatchColumn",
            FaultKind::BadSortKey => "BadSortKey",
            FaultKind::TableFull => "TableFull",
            FaultKind::JournalFull => "JournalFull",
        }
    }
}

/// Why a command was refused, and where.
#[derive(Drop)]
pub struct Fault {
    /// What is wrong.
    pub kind: FaultKind,
    /// The row of a load, counted from 1.
    pub row: Option<u64>,
    /// The byte place within a query or a script, counted from 0.
    pub at: Option<u64>,
    /// The name or the text that is wrong, or empty.
    pub name: Bytes,
}

impl Fault {
    /// A fault that is told by a name alone, which may be empty.
    pub fn named(kind: FaultKind, name: Bytes) -> Fault
        ensures { result ≡ fault_named kind name }
    {
        Fault {
            kind,
            row: None,
            at: None,
            name,
        }
    }
}

/// The text of a fault: its name, its row, its place and its own name, each where it has one.
pub fn fault_text(alloc: Global, fault: &Fault) -> Result<Bytes, NoMemory>
    requires { IsUtf8 fault.now.name }
    ensures exact { IfOk result (λ text. text ≡ fault_text fault.now) }
    ensures utf8 { IfOk result IsUtf8 }
{
    let mut text = String::from_str(alloc, fault.kind.name())?;
    push_labelled(&mut text, " row ", fault.row)?;
    push_labelled(&mut text, " at ", fault.at)?;
    push_spaced(&mut text, fault.name.as_text())?;
    Bytes::from_string(alloc, text)
}

fn push_labelled(text: &mut String, label: &str, number: Option<u64>) -> Result<(), NoMemory>
    ensures { OnOk result (string_bytes text.new ≡ string_bytes text.old ++ labelled label.now number) }
{
    if let Some(number) = number {
        write!(text, "{label}{number}")?;
    }
    Ok(())
}

fn push_spaced(text: &mut String, name: &str) -> Result<(), NoMemory>
    ensures { OnOk result (string_bytes text.new ≡ string_bytes text.old ++ spaced name.now) }
{
    if !name.is_empty() {
        text.push_str(" ")?;
        text.push_str(name)?;
    }
    Ok(())
}
