// Types of values, and what each takes.
ghost use Rattle.std.specs.Prelude.{◌≡◌};

use gr_base::{FaultKind, LONGEST_LONG_TEXT, LONGEST_MIDDLE_TEXT, LONGEST_SHORT_TEXT, TableNo};

/// A type of plain values.
#[derive(Clone, Copy, Debug, PartialEq, Eq)]
pub enum DataType {
    /// `true` and `false`.
    Bool,
    /// Whole numbers of 8 bits with a sign.
    Int8,
    /// Whole numbers of 16 bits with a sign.
    Int16,
    /// Whole numbers of 32 bits with a sign.
    Int32,
    /// Whole numbers of 64 bits with a sign.
    Int64,
    /// Whole numbers of 8 bits from 0.
    UInt8,
    /// Whole numbers of 16 bits from 0.
    UInt16,
    /// Whole numbers of 32 bits from 0.
    UInt32,
    /// Whole numbers of 64 bits from 0.
    UInt64,
    /// Texts of at most `LONGEST_SHORT_TEXT` bytes.
    ShortText,
    /// Texts of at most `LONGEST_MIDDLE_TEXT` bytes.
    Text,
    /// Texts of at most `LONGEST_LONG_TEXT` bytes.
    LongText,
}

impl DataType {
    ghost use Rattle.std.specs.Prelude.{IfSome};
    ghost use Rattle.gr_values.specs.Fits.{IsNarrow};
    ghost use Rattle.gr_values.specs.Types.{is_bool, is_key_type, range_of, text_limit};

    /// The least and the greatest number of a whole number type.
    pub fn range(self) -> Option<Range>
        ensures exact { result ≡ range_of self }
        ensures narrow { IfSome result IsNarrow }
    {
        let (least, greatest) = match self {
            DataType::Int8 => (-128, 127),
            DataType::Int16 => (-32_768, 32_767),
            DataType::Int32 => (-2_147_483_648, 2_147_483_647),
            DataType::Int64 => (-9_223_372_036_854_775_808, 9_223_372_036_854_775_807),
            DataType::UInt8 => (0, 255),
            DataType::UInt16 => (0, 65_535),
            DataType::UInt32 => (0, 4_294_967_295),
            DataType::UInt64 => (0, 18_446_744_073_709_551_615),
            DataType::Bool | DataType::ShortText | DataType::Text | DataType::LongText => {
                return None;
            }
        };
        Some(Range { least, greatest })
    }

    /// How many bytes a text of a text type has at most.
    pub fn text_limit(self) -> Option<usize>
        ensures { result ≡ text_limit self }
    {
        match self {
            DataType::ShortText => Some(LONGEST_SHORT_TEXT),
            DataType::Text => Some(LONGEST_MIDDLE_TEXT),
            DataType::LongText => Some(LONGEST_LONG_TEXT),
            _ => None,
        }
    }

    /// Whether this is `Bool`.
    pub fn is_bool(self) -> bool
        ensures { result ≡ is_bool self }
    {
        matches!(self, DataType::Bool)
    }

    /// Whether keys may have this type: the whole number types and `ShortText`.
    pub fn is_key_type(self) -> bool
        ensures { result ≡ is_key_type self }
    {
        !matches!(self, DataType::Bool | DataType::Text | DataType::LongText)
    }
}

/// From the least number that a type takes to the greatest.
#[derive(Clone, Copy, Debug, PartialEq, Eq)]
pub struct Range {
    /// The least number.
    pub least: i128,
    /// The greatest number.
    pub greatest: i128,
}

impl Range {
    ghost use Rattle.std.specs.Prelude.{IfOk};
    ghost use Rattle.gr_values.specs.Fits.{IsIn};
    ghost use Rattle.gr_values.specs.Values.{in_range};

    /// The number, where it is in the range.
    pub fn checked(self, number: i128) -> Result<i128, FaultKind>
        ensures exact { result ≡ in_range self number }
        ensures fits { IfOk result (IsIn self) }
    {
        if self.least <= number && number <= self.greatest {
            Ok(number)
        } else {
            Err(FaultKind::OutOfRange)
        }
    }
}

/// What a column or a key holds.
#[derive(Clone, Copy, Debug, PartialEq, Eq)]
pub enum Kind {
    /// Values of this type.
    Plain(DataType),
    /// References to records of this table.
    Reference(TableNo),
}

/// What values a place takes: one or a list of them, of which type, by reference or plain.
#[derive(Clone, Copy, Debug, PartialEq, Eq)]
pub struct Shape {
    /// Whether it takes lists.
    pub list: bool,
    /// The type of a value, and for a reference that of the key.
    pub of: DataType,
    /// Whether it takes references.
    pub reference: bool,
}
