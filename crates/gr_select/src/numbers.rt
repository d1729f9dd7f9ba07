// The numbers that parameters write.
ghost use Rattle.std.specs.Prelude.{◌≡◌, true, IfErr, IfOk, IfSome};
ghost use Rattle.gr_base.specs.Failure.{Answers};
ghost use Rattle.gr_schema.specs.Wishes.{IsTold};
ghost use Rattle.gr_select.specs.Numbers.{number_of};
ghost use Rattle.gr_select.specs.Select.{number_or};
ghost use Rattle.gr_values.specs.Fits.{IsWhole};
ghost use Rattle.gr_values.specs.Types.{is_key_type};

use crate::faults::fault_named;
use gr_base::{Failure, Fault, FaultKind, NoMemory};
use gr_cmdline::{Args, Param};
use gr_values::{DataType, Key, key_of_text};
use std::alloc::Global;

// The number of 64 bits that a parameter gives, or this one where none is given.
pub(crate) fn number_or(
    alloc: Global,
    usual: i64,
    args: &Args,
    param: Param,
) -> Result<i64, Failure<Fault>>
    ensures exact { Answers result (number_or usual args.now.given param) }
    ensures text { IfErr result IsTold }
{
    let Some(text) = args.get(param) else {
        return Ok(usual);
    };
    match number_of(alloc, text, DataType::Int64)? {
        Some(number) => Ok(number as i64),
        None => {
            let name = param.name();
            Err(Failure::Refused(fault_named(alloc, FaultKind::BadNumber, name)?))
        }
    }
}

/// The number that a text writes as a key of this type is written: decimal digits, with a minus before them or not.
pub fn number_of(alloc: Global, text: &str, of: DataType) -> Result<Option<i128>, NoMemory>
    requires { is_key_type of ≡ true }
    ensures exact { IfOk result (λ number. number ≡ number_of of text.now) }
    ensures fits { IfOk result (λ number. IfSome number (IsWhole of)) }
{
    match key_of_text(alloc, text, of) {
        Ok(Key::Number(number)) => Ok(Some(number)),
        Ok(Key::Text(_)) | Err(Failure::Refused(_)) => Ok(None),
        Err(Failure::NoMemory) => Err(NoMemory),
    }
}
