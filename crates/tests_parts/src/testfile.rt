//! Trees of test files at the limits of reading, and each beginning of a file.

use crate::rows::{is_told, text_of};
use ct_base::{CalmFiles, Files, List, Name, NoMemory, Pair, TestDef};
use ct_testfile::{ReadFault, read_tree};
use std::alloc::{AllocError, Global};
use std::test::Fail;

/// A test file as CMake writes it.
const GENERATED: &str = "\
# CMake generated Testfile for 
# Source directory: /home/u/demo
# Build directory: /home/u/demo/build
add_test([=[unit one]=] \"/home/u/demo/build/unit\" \"--fast\" \"a;b\")
set_tests_properties([=[unit one]=] PROPERTIES  LABELS \"core;fast\" _BACKTRACE_TRIPLES \"/home/u/demo/CMakeLists.txt;9;add_test;/home/u/demo/CMakeLists.txt;0;\")
subdirs(\"lib\")
subdirs(\"none\")
";

const TOP: &str = "./CTestTestfile.cmake";

/// Returns the folder and the name of the first test that is read, or the refusal.
fn told(alloc: Global, read: &Result<List<TestDef>, ReadFault>) -> Result<String, AllocError> {
    match read {
        Ok(tests) => first_told(alloc, tests.as_slice()),
        Err(fault) => fault_told(alloc, fault),
    }
}

fn first_told(alloc: Global, tests: &[TestDef]) -> Result<String, AllocError> {
    match tests.first() {
        Some(test) => {
            let dir = text_of(test.dir.bytes());
            format!(in alloc; "{dir}|{}|", text_of(test.name.bytes()))
        }
        None => Ok(String::new(alloc)),
    }
}

fn fault_told(alloc: Global, fault: &ReadFault) -> Result<String, AllocError> {
    match fault {
        ReadFault::At { file, line, kind } => {
            let file = text_of(file.bytes());
            let (file, colon) = if file == TOP { ("", "") } else { (file, ":") };
            format!(in alloc; "{file}{colon}{line} {kind:?}")
        }
        ReadFault::FilesFailed { path } => format!(in alloc; "failed {}", text_of(path.bytes())),
        ReadFault::NoMemory => format!(in alloc; "no memory"),
    }
}

/// Reads the tree of the folder `.` for a configuration.
fn read_for<F: Files>(
    alloc: Global,
    files: &mut F,
    config: &str,
) -> Result<List<TestDef>, ReadFault> {
    let dir = Name::of(alloc, b".")?;
    let config = Name::of(alloc, config.as_bytes())?;
    read_tree(alloc, files, &dir, &config)
}

/// Returns what is read of the tree of the folder `.` for a configuration.
fn told_for<F: Files>(alloc: Global, files: &mut F, config: &str) -> Result<String, AllocError> {
    told(alloc, &read_for(alloc, files, config))
}

fn file(alloc: Global, path: &str, text: &[u8]) -> Result<Pair, NoMemory> {
    Ok(Pair {
        name: Name::of(alloc, path.as_bytes())?,
        value: Name::of(alloc, text)?,
    })
}

/// Returns the text of a test file with 16,000 tests.
fn many_tests(alloc: Global) -> Result<Vec<u8>, AllocError> {
    let mut tests = Vec::new(alloc);
    for _ in 0..16_000 {
        tests.extend_from_slice(b"add_test(a b)\n")?;
    }
    Ok(tests)
}

/// Returns the text of a test file that reads 25 folders, and behind them another one.
fn many_folders(alloc: Global) -> Result<String, AllocError> {
    let mut top = String::new(alloc);
    for number in 1..26 {
        write!(top, "subdirs(d{number})\n")?;
    }
    top.push_str("subdirs(last)\n")?;
    Ok(top)
}

/// Returns the test file of one of the 25 folders.
fn folder(alloc: Global, number: u32, tests: &[u8]) -> Result<Pair, NoMemory> {
    let path = format!(in alloc; "./d{number}/CTestTestfile.cmake")?;
    file(alloc, path.as_str(), tests)
}

/// Makes 25 folders of 16,000 tests each, and behind them a folder with this test file.
fn folders(alloc: Global, last: &[u8]) -> Result<List<Pair>, NoMemory> {
    let tests = many_tests(alloc)?;
    let top = many_folders(alloc)?;
    let mut held = List::new(alloc);
    for number in 1..26 {
        held.push(folder(alloc, number, &tests)?)?;
    }
    held.push(file(alloc, TOP, top.as_bytes())?)?;
    held.push(file(alloc, "./last/CTestTestfile.cmake", last)?)?;
    Ok(held)
}

/// Reads the 25 folders, and behind them a folder with this test file.
fn read_folders(alloc: Global, last: &[u8]) -> Result<List<TestDef>, ReadFault> {
    read_for(alloc, &mut CalmFiles::new(folders(alloc, last)?), "")
}

#[test]
fn reads_as_many_tests_as_a_tree_may_have(rt: HostRuntime) -> Result<(), Fail> {
    assert!(rt; read_folders(rt.alloc(), b"")?.len() == 400_000);
    let told = told(rt.alloc(), &read_folders(rt.alloc(), b"add_test(a b)"))?;
    is_told(
        &rt,
        "one more",
        told.as_str(),
        "./last/CTestTestfile.cmake:1 TooManyTests",
    );
    Ok(())
}

/// Reads a text as the one test file of a tree.
fn read_text(alloc: Global, text: Name) -> Result<String, NoMemory> {
    let mut held = List::new(alloc);
    let name = Name::of(alloc, TOP.as_bytes())?;
    held.push(Pair { name, value: text })?;
    read_held(alloc, held)
}

fn read_held(alloc: Global, held: List<Pair>) -> Result<String, NoMemory> {
    let mut files = CalmFiles::new(held);
    Ok(told_for(alloc, &mut files, "")?)
}

/// Reads a command with a value of so many bytes.
fn read_value(alloc: Global, bytes: u32) -> Result<String, NoMemory> {
    read_text(alloc, Name::from_vec(setting(alloc, bytes)?))
}

/// Returns the text of a command with a value of so many bytes.
fn setting(alloc: Global, bytes: u32) -> Result<Vec<u8>, AllocError> {
    let mut text = Vec::new(alloc);
    text.extend_from_slice(b"set(a ")?;
    for _ in 0..bytes {
        text.push(b'x')?;
    }
    text.push(b')')?;
    Ok(text)
}

#[test]
fn reads_a_value_up_to_its_limit(rt: HostRuntime) -> Result<(), Fail> {
    let whole = read_value(rt.alloc(), 1_048_576)?;
    is_told(&rt, "1048576", whole.as_str(), "");
    let more = read_value(rt.alloc(), 1_048_577)?;
    is_told(&rt, "1048577", more.as_str(), "1 TooLong");
    Ok(())
}

/// Reads so many files behind the first one, each of which opens the next one.
fn read_chain(alloc: Global, count: u32) -> Result<String, NoMemory> {
    let mut held = List::new(alloc);
    held.push(file(alloc, TOP, b"include(1)")?)?;
    for number in 1..count {
        held.push(link(alloc, number)?)?;
    }
    held.push(numbered(alloc, count, b"")?)?;
    read_held(alloc, held)
}

/// Returns the file with this number, which opens the next one.
fn link(alloc: Global, number: u32) -> Result<Pair, NoMemory> {
    let text = format!(in alloc; "include({})", number.saturating_add(1))?;
    numbered(alloc, number, text.as_bytes())
}

/// Returns the file with this number.
fn numbered(alloc: Global, number: u32, text: &[u8]) -> Result<Pair, NoMemory> {
    let path = format!(in alloc; "./{number}")?;
    file(alloc, path.as_str(), text)
}

#[test]
fn opens_64_files_inside_one_another(rt: HostRuntime) -> Result<(), Fail> {
    let most = read_chain(rt.alloc(), 63)?;
    is_told(&rt, "63", most.as_str(), "");
    let more = read_chain(rt.alloc(), 64)?;
    is_told(&rt, "64", more.as_str(), "./63:1 TooDeep");
    Ok(())
}

/// Returns the first bytes of the test file that CMake wrote.
fn cut(alloc: Global, len: usize) -> Result<Name, NoMemory> {
    Name::of(alloc, GENERATED.as_bytes().get(..len).unwrap_or(b""))
}

/// Reads the first bytes of the test file that CMake wrote.
fn read_cut(alloc: Global, len: usize) -> Result<String, NoMemory> {
    read_text(alloc, cut(alloc, len)?)
}

#[test]
fn answers_each_beginning_of_a_file(rt: HostRuntime) -> Result<(), Fail> {
    for len in 0..=GENERATED.len() {
        let told = read_cut(rt.alloc(), len)?;
        assert!(rt; is_answer(told.as_str()), "{len}: {told}");
    }
    Ok(())
}

/// Returns whether a beginning of the file may be read so: as no test, as its test, or as one that ends
/// inside a command.
fn is_answer(told: &str) -> bool {
    let kinds = ["OpenString", "OpenBracket", "OpenCall"];
    told.is_empty()
        || told.starts_with(".|unit one|")
        || kinds.iter().any(|kind| told.ends_with(*kind))
}

/// Makes 21 files, each with two lines that include the next one, and an empty one.
fn doubling(alloc: Global) -> Result<List<Pair>, NoMemory> {
    let mut held = List::new(alloc);
    held.push(including(alloc, "CTestTestfile.cmake", 1)?)?;
    for number in 1..21u32 {
        let name = format!(in alloc; "f{number}")?;
        held.push(including(alloc, name.as_str(), number + 1)?)?;
    }
    held.push(file(alloc, "./f21", b"")?)?;
    Ok(held)
}

fn including(alloc: Global, name: &str, next: u32) -> Result<Pair, NoMemory> {
    let path = format!(in alloc; "./{name}")?;
    let text = format!(in alloc; "include(\"f{next}\")\ninclude(\"f{next}\")\n")?;
    file(alloc, path.as_str(), text.as_bytes())
}

#[test]
fn refuses_files_that_double(rt: HostRuntime) -> Result<(), Fail> {
    let told = read_held(rt.alloc(), doubling(rt.alloc())?)?;
    assert!(rt; told.ends_with(" TooManyCommands"), "{told}");
    Ok(())
}

/// Reads a file of so many line feeds.
fn read_feeds(alloc: Global, len: usize) -> Result<String, NoMemory> {
    let feeds = vec![in alloc; b'\n'; len]?;
    read_text(alloc, Name::from_vec(feeds))
}

#[test]
fn reads_line_feeds_up_to_the_limit_of_a_file(rt: HostRuntime) -> Result<(), Fail> {
    let more = read_feeds(rt.alloc(), 16_777_217)?;
    is_told(&rt, "16777217", more.as_str(), "0 TooLong");
    let most = read_feeds(rt.alloc(), 16_777_216)?;
    is_told(&rt, "16777216", most.as_str(), "");
    Ok(())
}
