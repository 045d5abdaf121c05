ghost use Rattle.std.specs.Prelude.{◌≡◌, ◌++◌, OnOk, decimal};
ghost use Rattle.ct_report.specs.Report.{seconds_text};

use ct_base::{Blob, NoMemory};
use std::alloc::Global;

/// Puts a number in decimal and then these bytes behind the text.
pub(crate) fn append_number_and(
    alloc: Global,
    text: &mut Blob,
    number: u128,
    bytes: &[u8],
) -> Result<(), NoMemory>
    ensures { OnOk result (text.new ≡ text.old ++ decimal number ++ bytes.now) }
{
    text.append_number(alloc, number)?;
    text.append(bytes)
}

/// Puts microseconds behind the text, as seconds with two digits of hundredths, rounded down.
pub(crate) fn append_seconds(alloc: Global, text: &mut Blob, micros: u64) -> Result<(), NoMemory>
    ensures { OnOk result (text.new ≡ text.old ++ seconds_text micros) }
{
    append_number_and(alloc, text, u128::from(micros / 1_000_000), b".")?;
    let hundredths = (micros / 10_000 % 100) as u8;
    text.append(&[b'0' + hundredths / 10, b'0' + hundredths % 10])
}
