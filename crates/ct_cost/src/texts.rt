ghost use Rattle.std.specs.Prelude.{◌≡◌, ◌++◌, ◌+◌, ◌/◌, ◌%◌, ◌<◌, OnOk};
ghost use Rattle.ct_cost.specs.Text.{exact_seconds as seconds, cost_line_text as line_written};
ghost use Rattle.ct_cost.specs.Kept.{line_for};

use crate::durations::Durations;
use ct_base::{Blob, NoMemory};
use std::alloc::Global;

/// Puts a line of cost data behind the text.
pub(crate) fn append_line(
    alloc: Global,
    text: &mut Blob,
    name: &[u8],
    durations: &Durations,
) -> Result<(), NoMemory>
    ensures { OnOk result (text.new ≡ text.old ++ line_written (line_for name.now durations.now)) }
{
    text.append(name)?;
    text.append(b" ")?;
    durations.append_to(alloc, text)?;
    text.append(b"\n")
}

/// Puts microseconds behind the text, as seconds with six decimals.
pub(crate) fn append_seconds(alloc: Global, text: &mut Blob, micros: u64) -> Result<(), NoMemory>
    ensures { OnOk result (text.new ≡ text.old ++ seconds micros) }
{
    text.append_number(alloc, u128::from(micros / 1_000_000))?;
    text.append(b".")?;
    let rest = micros % 1_000_000;
    text.append(&[
        digit(rest, 100_000),
        digit(rest, 10_000),
        digit(rest, 1_000),
        digit(rest, 100),
        digit(rest, 10),
        digit(rest, 1),
    ])
}

/// Returns the digit of a number at a decimal place.
fn digit(number: u64, place: u64) -> u8
    requires { 0 < place }
    ensures { result ≡ 48 + number / place % 10 }
{
    b'0' + (number / place % 10) as u8
}
