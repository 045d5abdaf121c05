//! The files of the machine: what is read back, what is not there, and which calls fail.

use crate::rows::{asked_and_wanted, expect, number, text};
use ct_base::{Files, FilesFault, Name, NoMemory};
use ct_edge::RealFiles;
use std::alloc::Global;
use std::process::Abort;
use std::test::Fail;

/// How many bytes of a file of `hello` are asked for, and what is read: at most one byte more.
const READS: &str = "\
5 is hello
4 is hello
3 is hell
0 is h
18446744073709551615 is hello
";

/// Paths at which there is nothing. The last two lie below what is no folder.
const ABSENT: &str = "\
absent
/no/such/file
/dev/null/a
/bin/sh/below/it
";

/// Paths that cannot be read.
const UNREADABLE: &str = "\
/
no text
a\0b
";

/// Paths that cannot be written.
const UNWRITABLE: &str = "\
/
no text
a\0b
/dev/full
/dev/null/a
";

/// Returns the path that a row writes, or one that is no text.
fn path(alloc: Global, row: &str) -> Result<Name, NoMemory> {
    if row == "no text" {
        return Name::of(alloc, b"\xff");
    }
    Name::of(alloc, row.as_bytes())
}

#[test]
fn reads_back_what_it_wrote(rt: HostRuntime) -> Result<(), Fail> {
    let mut files = RealFiles::new(&rt);
    let path = path(rt.alloc(), "made/for/it/file")?;
    write_twice(&rt, &mut files, &path)?;
    assert_eq!(rt; files.faults(), 0);
    Ok(())
}

/// Writes a file that is not there, writes it again, and reads it back.
fn write_twice(
    rt: &(impl Abort + AllocGlobal),
    files: &mut impl Files,
    path: &Name,
) -> Result<(), Fail> {
    let alloc = rt.alloc();
    assert!(rt; !files.exists(alloc, path)?);
    files.write(alloc, path, b"something longer")?;
    files.write(alloc, path, b"hello")?;
    are_read(files, alloc, path)?;
    assert!(rt; files.exists(alloc, path)?);
    Ok(())
}

fn are_read(files: &mut impl Files, alloc: Global, path: &Name) -> Result<(), Fail> {
    for row in READS.lines() {
        let (most, want) = asked_and_wanted(row);
        match files.read(alloc, path, number(most))? {
            Some(bytes) => expect(row, text(&bytes), want)?,
            None => expect(row, "absent", want)?,
        }
    }
    Ok(())
}

#[test]
fn finds_nothing_where_nothing_is(rt: HostRuntime) -> Result<(), Fail> {
    let mut files = RealFiles::new(&rt);
    are_absent(&rt, &mut files)?;
    assert_eq!(rt; files.faults(), 0);
    Ok(())
}

fn are_absent(rt: &(impl Abort + AllocGlobal), files: &mut impl Files) -> Result<(), Fail> {
    for row in ABSENT.lines() {
        assert!(rt; is_absent(files, rt.alloc(), row)?, "at {row}");
    }
    Ok(())
}

/// Returns whether a look and a read both find nothing.
fn is_absent(files: &mut impl Files, alloc: Global, row: &str) -> Result<bool, FilesFault> {
    let path = path(alloc, row)?;
    let is_there = files.exists(alloc, &path)?;
    Ok(!is_there && files.read(alloc, &path, 9)?.is_none())
}

#[test]
fn counts_the_reads_and_looks_that_fail(rt: HostRuntime) -> Result<(), Fail> {
    let mut files = RealFiles::new(&rt);
    are_unreadable(&rt, &mut files)?;
    assert_eq!(rt; files.faults(), 3);
    assert!(rt; cannot_be_looked_at(&mut files, rt.alloc(), "a\0b")?);
    assert_eq!(rt; files.faults(), 4);
    Ok(())
}

fn are_unreadable(rt: &(impl Abort + AllocGlobal), files: &mut impl Files) -> Result<(), Fail> {
    for row in UNREADABLE.lines() {
        assert!(rt; is_unreadable(files, rt.alloc(), row)?, "at {row}");
    }
    Ok(())
}

fn cannot_be_looked_at(files: &mut impl Files, alloc: Global, row: &str) -> Result<bool, NoMemory> {
    let path = path(alloc, row)?;
    Ok(files.exists(alloc, &path).is_err())
}

fn is_unreadable(files: &mut impl Files, alloc: Global, row: &str) -> Result<bool, NoMemory> {
    let path = path(alloc, row)?;
    Ok(files.read(alloc, &path, 9).is_err())
}

#[test]
fn counts_the_writes_that_fail(rt: HostRuntime) -> Result<(), Fail> {
    let mut files = RealFiles::new(&rt);
    are_unwritable(&rt, &mut files)?;
    assert_eq!(rt; files.faults(), 5);
    Ok(())
}

fn are_unwritable(rt: &(impl Abort + AllocGlobal), files: &mut impl Files) -> Result<(), Fail> {
    for row in UNWRITABLE.lines() {
        assert!(rt; is_unwritable(files, rt.alloc(), row)?, "at {row}");
    }
    Ok(())
}

fn is_unwritable(files: &mut impl Files, alloc: Global, row: &str) -> Result<bool, NoMemory> {
    let path = path(alloc, row)?;
    Ok(files.write(alloc, &path, b"x").is_err())
}
