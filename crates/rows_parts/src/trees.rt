//! Whole trees of test files: what they define, and what is refused where.
//!
//! A key that begins with `./` is the path of a file, and its text is what the file has. A test is told in a
//! line of its own, as `folder|name|command,|key=value,|label,`. A refusal is told as its line and its kind,
//! behind the path where it is not in the file at the top.

ghost use Rattle.ct_testfile.specs.Says.{AreBounded};

use crate::entries::text_of;
use crate::row::{Given, RowFault};
use crate::sheet::Cell;
use ct_base::{CalmFiles, Files, List, MemFiles, Name, NoMemory, Pair, TestDef};
use ct_testfile::{LIMITS, Limits, ReadFault, read_tree, read_tree_within};
use std::alloc::{AllocError, Global};

const TOP: &str = "./CTestTestfile.cmake";

/// Tells what is read of the tree of the folder `.` for a configuration.
pub(crate) fn tree(alloc: Global, given: Given<'_>) -> Result<String, RowFault> {
    let mut files = CalmFiles::new(held(alloc, given.row)?);
    Ok(told_for(alloc, &mut files, given.text("config")?)?)
}

/// Tells what is read where one call of the files fails.
pub(crate) fn failing(alloc: Global, given: Given<'_>) -> Result<String, RowFault> {
    let mut fail_at = List::new(alloc);
    fail_at.push(given.number("failing call")?)?;
    let mut files = MemFiles::new(held(alloc, given.row)?, fail_at);
    Ok(told_for(alloc, &mut files, "")?)
}

/// Tells what is read with a limit that is one less than its value. With the value itself all has to be read.
pub(crate) fn limited(alloc: Global, given: Given<'_>) -> Result<String, RowFault> {
    let limit = given.text("limit")?;
    let Ok(most) = given.text("least")?.parse::<u16>() else {
        return Err(RowFault::Unfit("least"));
    };
    Ok(limited_told(alloc, held(alloc, given.row)?, limit, most)?)
}

fn limited_told(
    alloc: Global,
    held: List<Pair>,
    limit: &str,
    most: u16,
) -> Result<String, NoMemory> {
    let mut files = CalmFiles::new(held);
    if !is_read(alloc, &mut files, &limits_with(limit, most)) {
        return Ok(String::from_str(alloc, "not read at the limit")?);
    }
    let below = limits_with(limit, most.saturating_sub(1));
    Ok(told_within(alloc, &mut files, &below)?)
}

/// Returns whether the tree of the folder `.` is read within these limits.
fn is_read(alloc: Global, files: &mut CalmFiles, limits: &Limits) -> bool
    requires { AreBounded limits.now }
{
    read_within(alloc, files, limits).is_ok()
}

/// Tells what is read of the tree of the folder `.` within these limits.
fn told_within(alloc: Global, files: &mut CalmFiles, limits: &Limits) -> Result<String, AllocError>
    requires { AreBounded limits.now }
{
    told(alloc, &read_within(alloc, files, limits))
}

/// Returns the files of a row.
fn held(alloc: Global, cells: &[Cell]) -> Result<List<Pair>, NoMemory> {
    let mut held = List::new(alloc);
    for cell in cells {
        if cell.key.as_str().starts_with("./") {
            held.push(Pair {
                name: Name::of(alloc, cell.key.as_bytes())?,
                value: Name::of(alloc, cell.text.as_slice())?,
            })?;
        }
    }
    Ok(held)
}

/// Appends the items of a list, each with a comma behind, and an end.
fn put_items(told: &mut String, names: &List<Name>, end: &str) -> Result<(), AllocError> {
    for name in names.as_slice() {
        write!(told, "{},", text_of(name.bytes()))?;
    }
    told.push_str(end)
}

fn put_props(told: &mut String, props: &List<Pair>) -> Result<(), AllocError> {
    for prop in props.as_slice() {
        let key = text_of(prop.name.bytes());
        write!(told, "{key}={},", text_of(prop.value.bytes()))?;
    }
    told.push_str("|")
}

fn put_test(told: &mut String, test: &TestDef) -> Result<(), AllocError> {
    let dir = text_of(test.dir.bytes());
    write!(told, "{dir}|{}|", text_of(test.name.bytes()))?;
    put_items(told, &test.command, "|")?;
    put_props(told, &test.props)?;
    put_items(told, &test.dir_labels, "")
}

fn tests_told(alloc: Global, tests: &List<TestDef>) -> Result<String, AllocError> {
    let mut told = String::new(alloc);
    for test in tests.as_slice() {
        if !told.is_empty() {
            told.push_str("\n")?;
        }
        put_test(&mut told, test)?;
    }
    Ok(told)
}

/// Tells what is read of some files.
fn told(alloc: Global, read: &Result<List<TestDef>, ReadFault>) -> Result<String, AllocError> {
    match read {
        Ok(tests) => tests_told(alloc, tests),
        Err(fault) => fault_told(alloc, fault),
    }
}

fn fault_told(alloc: Global, fault: &ReadFault) -> Result<String, AllocError> {
    match fault {
        ReadFault::At { file, line, kind } => {
            let file = text_of(file.bytes());
            let (file, colon) = if file == TOP { ("", "") } else { (file, ":") };
            format!(in alloc; "{file}{colon}{line} {kind:?}")
        }
        ReadFault::FilesFailed { path } => format!(in alloc; "failed {}", text_of(path.bytes())),
        ReadFault::NoMemory => format!(in alloc; "no memory"),
    }
}

/// Reads the tree of the folder `.` for a configuration.
fn read_for<F: Files>(
    alloc: Global,
    files: &mut F,
    config: &str,
) -> Result<List<TestDef>, ReadFault> {
    let dir = Name::of(alloc, b".")?;
    let config = Name::of(alloc, config.as_bytes())?;
    read_tree(alloc, files, &dir, &config)
}

/// Tells what is read of the tree of the folder `.` for a configuration.
fn told_for<F: Files>(alloc: Global, files: &mut F, config: &str) -> Result<String, AllocError> {
    told(alloc, &read_for(alloc, files, config))
}

/// Returns the limits of reading, with this one changed.
fn limits_with(limit: &str, most: u16) -> Limits
    ensures { AreBounded result }
{
    let mut limits = LIMITS;
    let most = u32::from(most);
    match limit {
        "file_bytes" => limits.file_bytes = most,
        "all_file_bytes" => limits.all_file_bytes = most,
        "value_bytes" => limits.value_bytes = most,
        "all_value_bytes" => limits.all_value_bytes = most,
        "open_files" => limits.open_files = most,
        "commands" => limits.commands = most,
        "tests" => limits.tests = most,
        _ => {}
    }
    limits
}

/// Reads the tree of the folder `.` within these limits.
fn read_within(
    alloc: Global,
    files: &mut CalmFiles,
    limits: &Limits,
) -> Result<List<TestDef>, ReadFault>
    requires { AreBounded limits.now }
{
    let dir = Name::of(alloc, b".")?;
    let config = Name::of(alloc, b"")?;
    read_tree_within(alloc, files, limits, &dir, &config)
}
