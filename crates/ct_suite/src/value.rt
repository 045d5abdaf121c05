ghost use Rattle.std.specs.Prelude.{◌≡◌, ◌-◌, ◌^◌, [], false, min, unwrap_or, IfErr, IfOk};
ghost use Rattle.ct_suite.specs.Values.{variable_value, values_of, texts, size};
ghost use Rattle.ct_suite.specs.Readers.{StopsFor, are_too_long};

use crate::fault::ValueFault;
use crate::limits::ValueLimits;
use crate::reader::Reader;
use crate::table::Table;
use ct_base::{List, Name, NoMemory};
use ct_lex::Args;
use std::alloc::Global;

/// A value that a command gets, after evaluation.
#[derive(Debug, Drop)]
pub struct Value {
    pub text: Name,
    /// Whether it comes from an unquoted argument.
    pub unquoted: bool,
}

/// Returns the values of a command's arguments, unless they are longer than the limits allow.
///
/// Source: CMake manual, cmake-language(7), Command Arguments and Variable References.
pub fn values_of(
    alloc: Global,
    limits: &ValueLimits,
    table: &Table,
    args: &Args,
) -> Result<List<Value>, ValueFault>
    ensures values { IfOk result (λ values. values ≡ values_of table.now args.now) }
    ensures within { IfOk result (λ values. are_too_long limits.now values ≡ false) }
    ensures stopped { IfErr result (StopsFor limits.now (values_of table.now args.now)) }
{
    let mut reader = Reader::new(alloc);
    let mut left = args.reader();
    'reads: while let Some(next) = left.lend_next(alloc)? {
        reader.take_next(alloc, limits, table, next)?;
    }
    let Reader {
        values,
        bytes: _,
        text: _,
        held: _,
    } = reader;
    Ok(values)
}

/// Lends the value of a variable; no bytes if the variable is not set.
pub(crate) fn value_text<'a>(table: &'a Table, name: &Name) -> &'a [u8]
    ensures { result.now ≡ unwrap_or (variable_value table.entry.now name.now) [] }
{
    match table.value(name.bytes()) {
        Some(value) => value.bytes(),
        None => &[],
    }
}

/// Returns the texts of values.
pub fn texts(alloc: Global, values: List<Value>) -> Result<List<Name>, NoMemory>
    ensures { IfOk result (λ names. names ≡ texts values) }
{
    let mut names = List::from_vec(Vec::with_capacity(alloc, values.len())?);
    for value in values.into_vec() {
        names.push(value.text)?;
    }
    Ok(names)
}

/// Counts the bytes of values, at most 2^64 - 1.
pub fn size(values: &[Value]) -> u64
    ensures { result ≡ min (size values.now) (2 ^ 64 - 1) }
{
    let mut bytes: u64 = 0;
    for value in values {
        bytes = bytes.saturating_add(value.text.bytes().len() as u64);
    }
    bytes
}
