ghost use Rattle.std.specs.Prelude.{◌≡◌, ◌∷◌, [], IsTrue, Ok, is_some, length};
ghost use Rattle.ct_base.specs.Path.{joined};
ghost use Rattle.ct_regex.specs.Reading as pattern;
ghost use Rattle.ct_testfile.specs.Outcome.{on_line};
ghost use Rattle.ct_testfile.specs.Asks.{Blames, NamesPath};
ghost use Rattle.ct_testfile.specs.TreeCalls.{MakesCalls, exists_calls};
ghost use Rattle.ct_base.specs.declared.file_call.FileCall.TheVariants.{Exists};
ghost use Rattle.ct_testfile.specs.Says.{Follows, Over};
ghost use Rattle.ct_testfile.specs.Condition.{bad_pattern, holds, is_exists, is_matches, is_bare_word, matched, subject};

use crate::fault::{ReadFault, ReadKind, Stop, files_fault};
use crate::open_file::OpenFile;
use ct_base::{Files, Name, join_path};
use ct_regex::{Regex, RegexFault};
use ct_suite::{Table, Value};
use std::alloc::Global;

/// Returns whether a condition holds, on this line of the file.
///
/// Source: CMake manual, if, Condition Syntax.
pub(crate) fn holds<F: Files>(
    files: &mut F,
    here: &OpenFile<'_>,
    line: u32,
    table: &Table,
    values: &[Value],
) -> Result<bool, ReadFault>
    ensures says { Over (F.tells files.old) (F.tells files.new)
        (λ held. on_line here.now.file.now.path line
        (holds held here.now.file.now.dir table.now values.now)) result }
    ensures asks { Blames (NamesPath here.now.file.now.dir values.now) result }
    ensures calls { MakesCalls (exists_calls here.now.file.now.dir values.now)
        (F.calls files.old) (F.calls files.new) result }
{
    if is_exists(values) {
        return exists(here.alloc, files, &here.file.dir, &values[1].text);
    }
    if is_matches(values) {
        let found = matched(
            here.alloc,
            subject(table, &values[0]),
            values[2].text.bytes(),
        );
        return here.at_line(line, found);
    }
    here.at_line(line, Err(Stop::Refused(ReadKind::BadCondition)))
}

/// Returns whether values are `EXISTS path`.
fn is_exists(values: &[Value]) -> bool
    ensures is { result ≡ is_exists values.now }
    ensures two { IsTrue result → length values.now ≡ 2 }
{
    if values.len() != 2 {
        return false;
    }
    is_word(&values[0], b"EXISTS")
}

/// Returns whether values are `text MATCHES pattern`.
fn is_matches(values: &[Value]) -> bool
    ensures is { result ≡ is_matches values.now }
    ensures three { IsTrue result → length values.now ≡ 3 }
{
    if values.len() != 3 {
        return false;
    }
    is_word(&values[1], b"MATCHES")
}

/// Returns whether the files hold the path, taken from a folder.
fn exists<F: Files>(
    alloc: Global,
    files: &mut F,
    dir: &Name,
    name: &Name,
) -> Result<bool, ReadFault>
    ensures says { Over (F.tells files.old) (F.tells files.new) (λ held. Ok (is_some (held (joined dir.now name.now)))) result }
    ensures asks { Blames (λ path. path ≡ joined dir.now name.now) result }
    ensures calls { MakesCalls (Exists (joined dir.now name.now) ∷ [])
        (F.calls files.old) (F.calls files.new) result }
{
    let path = join_path(alloc, dir, name)?;
    match files.exists(alloc, &path) {
        Ok(found) => Ok(found),
        Err(fault) => Err(files_fault(path, fault)),
    }
}

/// Returns whether the value is that word of an unquoted argument.
fn is_word(value: &Value, word: &[u8]) -> bool
    ensures { result ≡ is_bare_word word.now value.now }
{
    value.unquoted && value.text.bytes() == word
}

/// Lends the text in front of MATCHES: the value of the variable that it names, or the text itself.
fn subject<'a>(table: &'a Table, value: &'a Value) -> &'a [u8]
    ensures { result.now ≡ subject table.entry.now value.entry.now }
{
    if !value.unquoted {
        return value.text.bytes();
    }
    match table.value(value.text.bytes()) {
        Some(meant) => meant.bytes(),
        None => value.text.bytes(),
    }
}

/// Returns whether a text has a match of a pattern.
fn matched(alloc: Global, text: &[u8], right: &[u8]) -> Result<bool, Stop>
    ensures { Follows result (matched text.now (pattern.reading right.now)) }
{
    match Regex::parse(alloc, right) {
        Ok(regex) => Ok(regex.hit(alloc, text)?),
        Err(fault) => Err(bad_pattern(fault)),
    }
}

/// Returns why a pattern was not read.
fn bad_pattern(fault: RegexFault) -> Stop
    ensures { result ≡ bad_pattern fault }
{
    match fault {
        RegexFault::NoMemory => Stop::NoMemory,
        _ => Stop::Refused(ReadKind::BadPattern),
    }
}
