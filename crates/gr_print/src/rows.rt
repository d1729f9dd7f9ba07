// Rows and the names of their columns, each appended to a text.
ghost use Rattle.std.specs.Prelude.{◌≡◌, ◌∷◌, [], ◌++◌, map, IfOk, IsUtf8, OnOk};
ghost use Rattle.std.specs.List.{AllByRecursion};
ghost use Rattle.json.specs.Print.{quoted};
ghost use Rattle.json.specs.Token.{string};
ghost use Rattle.gr_print.specs.Block.{row_text};
ghost use Rattle.gr_print.specs.Fits.{IsPrintable};
ghost use Rattle.gr_print.specs.Inside.Tokens.{array_of};
ghost use Rattle.gr_values.specs.Shown.{bracketed};
ghost use Rattle.gr_values.specs.Tokens.{Appends};

use crate::OutColumn;
use crate::items::write_row;
use crate::values::{close_array, open_array, write_text};
use gr_base::{NoMemory, RecordId};
use gr_expr::Rows;
use json::Writer;
use std::alloc::Global;

/// A text, and what columns show of a hit after it, as a compact JSON array. It takes memory for a default that is shown, and where the text grows.
pub fn with_row<R: Rows>(
    alloc: Global,
    text: Vec<u8>,
    rows: &R,
    columns: &[OutColumn],
    hit: (RecordId, u32),
) -> Result<Vec<u8>, NoMemory>
    requires { AllByRecursion (IsPrintable (R.tables rows.now)) columns.now }
    ensures { IfOk result (λ made. made.items ≡ text.items ++ row_text (R.tables rows.now) columns.now hit) }
{
    let mut writer = Writer::new(text);
    write_row(&mut writer, alloc, rows, columns, hit)?;
    Ok(writer.into_inner())
}

/// A text, and the names of columns after it, as a compact JSON array of strings.
pub fn with_names(text: Vec<u8>, columns: &[OutColumn]) -> Result<Vec<u8>, NoMemory>
    requires { AllByRecursion (λ column. IsUtf8 column.name) columns.now }
    ensures { IfOk result (λ made. made.items ≡ text.items ++ bracketed (map (λ column. quoted column.name) columns.now)) }
{
    let mut writer = Writer::new(text);
    write_names(&mut writer, columns)?;
    Ok(writer.into_inner())
}

// The names of columns.
fn write_names(writer: &mut Writer, columns: &[OutColumn]) -> Result<(), NoMemory>
    requires { AllByRecursion (λ column. IsUtf8 column.name) columns.now }
    ensures { OnOk result (Appends writer.old writer.new (array_of (λ column. string column.name ∷ []) columns.now)) }
{
    open_array(writer)?;
    for column in columns {
        write_text(writer, &column.name)?;
    }
    close_array(writer)?;
    Ok(())
}
