ghost use Rattle.std.specs.Prelude.{◌≡◌, ◌<◌, ◌^◌, IfOk};
ghost use Rattle.ct_load.specs.Tree.{add_line, depends, lines_of, lock, load_test_name, properties_line, tree_files, tree_text};

use ct_base::{Blob, CalmFiles, List, Name, NoMemory, Pair};
use std::alloc::Global;

/// Makes files that hold only the test file of `count` tests.
pub(crate) fn tree_files(alloc: Global, count: u32) -> Result<CalmFiles, NoMemory>
    ensures { IfOk result (λ files. files ≡ tree_files count) }
{
    let mut files = List::new(alloc);
    files.push(Pair {
        name: Name::of(alloc, b"./CTestTestfile.cmake")?,
        value: tree_text(alloc, count)?,
    })?;
    Ok(CalmFiles::new(files))
}

/// Writes the lines of `count` tests, whose numbers are from 1.
fn tree_text(alloc: Global, count: u32) -> Result<Name, NoMemory>
    ensures { IfOk result (λ text. text ≡ tree_text count) }
{
    let mut text = Vec::new(alloc);
    for before in 0..count {
        let lines = lines_of(alloc, before + 1)?;
        text.extend_from_slice(lines.bytes())?;
    }
    Ok(Name::from_vec(text))
}

/// Writes the two lines of a test.
fn lines_of(alloc: Global, number: u32) -> Result<Blob, NoMemory>
    requires { 0 < number }
    ensures { IfOk result (λ lines. lines ≡ lines_of number) }
{
    let mut lines = add_line(alloc, number)?;
    lines.append(properties_line(alloc, number)?.bytes())?;
    Ok(lines)
}

/// Writes the line that adds a test.
fn add_line(alloc: Global, number: u32) -> Result<Blob, NoMemory>
    ensures { IfOk result (λ line. line ≡ add_line number) }
{
    let mut line = Blob::of(alloc, b"add_test(")?;
    line.append(name_of(alloc, number)?.bytes())?;
    line.append(b" \"true\")\n")?;
    Ok(line)
}

/// Writes the line that sets the properties of a test.
fn properties_line(alloc: Global, number: u32) -> Result<Blob, NoMemory>
    requires { 0 < number }
    ensures { IfOk result (λ line. line ≡ properties_line number) }
{
    let mut line = Blob::of(alloc, b"set_tests_properties(")?;
    line.append(name_of(alloc, number)?.bytes())?;
    line.append(b" PROPERTIES PROCESSORS \"")?;
    line.append_number(alloc, u128::from(1 + number % 3))?;
    line.append(b"\" COST \"")?;
    line.append_number(alloc, u128::from(number % 7))?;
    line.append(b"\"")?;
    line.append(depends(alloc, number)?.bytes())?;
    line.append(lock(alloc, number)?.bytes())?;
    line.append(b")\n")?;
    Ok(line)
}

/// Writes the property by which every tenth test waits for the test in front of it.
fn depends(alloc: Global, number: u32) -> Result<Blob, NoMemory>
    requires { 0 < number }
    ensures { IfOk result (λ text. text ≡ depends number) }
{
    if number % 10 != 0 {
        return Ok(Blob::new(alloc));
    }
    let mut text = Blob::of(alloc, b" DEPENDS \"")?;
    text.append(name_of(alloc, number - 1)?.bytes())?;
    text.append(b"\"")?;
    Ok(text)
}

/// Writes the property of the lock that every fourth test holds, one of five.
fn lock(alloc: Global, number: u32) -> Result<Blob, NoMemory>
    ensures { IfOk result (λ text. text ≡ lock number) }
{
    if number % 4 != 0 {
        return Ok(Blob::new(alloc));
    }
    let mut text = Blob::of(alloc, b" RESOURCE_LOCK \"l")?;
    text.append_number(alloc, u128::from(number % 5))?;
    text.append(b"\"")?;
    Ok(text)
}

/// Writes the name of a test.
fn name_of(alloc: Global, number: u32) -> Result<Blob, NoMemory>
    ensures { IfOk result (λ name. name ≡ load_test_name number) }
{
    let mut name = Blob::of(alloc, b"t")?;
    name.append_number(alloc, u128::from(number))?;
    Ok(name)
}
