ghost use Rattle.std.specs.Prelude.{◌≡◌, ◌++◌, ◌∷◌, [], IfOk, OnOk, filter_map};
ghost use Rattle.std.specs.Option.{option_copied};
ghost use Rattle.ct_select.specs.FailedLog.{failed_in, name_in as name_told};

use ct_base::{List, Name, NoMemory, first_place, is_numeral};
use std::alloc::Global;

/// Reads the names in a log of failed tests, in order.
///
/// A line of one or more digits, a `:` and a text that is not empty gives that text. Other lines are
/// passed over. Lines end in a line feed; a last line without one counts.
///
/// Source: CMake manual, ctest(1), --rerun-failed. The form of a line is ctest's. That the number is
/// not looked at, and that other lines are passed over, is this project's choice.
pub fn failed_names(alloc: Global, log: &[u8]) -> Result<List<Name>, NoMemory>
    ensures { IfOk result (λ names. names ≡ failed_in log.now) }
{
    let mut names = List::new(alloc);
    for line in log.split(|byte| *byte == b'\n') {
        push_name(alloc, &mut names, line)?;
    }
    Ok(names)
}

/// Puts the name in a line behind the others, where it has one.
fn push_name(alloc: Global, names: &mut List<Name>, line: &[u8]) -> Result<(), NoMemory>
    ensures { OnOk result (names.new ≡ names.old ++ filter_map name_told (line.now ∷ [])) }
{
    if let Some(name) = name_in(line) {
        names.push(Name::of(alloc, name)?)?;
    }
    Ok(())
}

/// Finds the name in a line of the log.
fn name_in(line: &[u8]) -> Option<&[u8]>
    ensures { option_copied result ≡ name_told line.now }
{
    let at = first_place(line, b':')?;
    let (number, name) = (&line[..at], &line[at + 1..]);
    if !is_numeral(number) || name.is_empty() {
        return None;
    }
    Some(name)
}
