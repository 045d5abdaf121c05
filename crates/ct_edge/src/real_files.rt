ghost use Rattle.std.specs.Prelude.{◌≡◌, ◌≢◌, ◌+◌, ◌≤◌, Err, IfErr, IfOk, IfSome, None, Ok, OnErr, OnOk, Some, length};
ghost use Rattle.std.specs.IoError.{error_kind};
ghost use Rattle.std.specs.declared.io.ErrorKind.TheVariants as ErrorKind;
ghost use Rattle.ct_edge.specs.Machine.{files_tell};
ghost use Rattle.ct_base.specs.Outside.{HasCause};
ghost use Rattle.ct_base.specs.declared.files.FilesFault.TheVariants as FilesCause;

use crate::text::text_of;
use crate::transfer::{read_up_to, write_whole};
use ct_base::{Blob, Files, FilesFault, Name};
use std::alloc::Global;
use std::io::ErrorKind;
use std::marker::Model;
use std::{fs, io, rt};

/// The files of the machine, each named by a path that is a text.
///
/// A relative path begins at the working directory of the process.
/// Contracts see only how many calls failed.
#[derive(Drop)]
pub struct RealFiles<R> {
    rt: R,
    /// How many calls failed. The count stops at its last value.
    faults: u64,
}

impl<R> Model for RealFiles<R> {
    ghost use Rattle.std.specs.Prelude.{ℕ};

    ghost Value = { ℕ };

    ghost view = { λ files. files.faults };
}

impl<R> RealFiles<R> {
    /// Makes the files of which no call has failed.
    pub fn new(rt: R) -> RealFiles<R>
        ensures { result ≡ 0 }
    {
        RealFiles { rt, faults: 0 }
    }

    /// Returns how many calls failed.
    pub fn faults(&self) -> u64
        ensures { result ≡ self.now }
    {
        self.faults
    }

    /// Counts a call that failed.
    fn count<T>(&mut self, outcome: Result<T, FilesFault>) -> Result<T, FilesFault>
        ensures same { result ≡ outcome }
        ensures cause { HasCause FilesCause.Failed self.old self.new result }
        ensures kept { OnOk result (self.new ≡ self.old) }
    {
        if matches!(&outcome, Err(FilesFault::Failed)) {
            self.faults = self.faults.saturating_add(1);
        }
        outcome
    }
}

impl<R: rt::Files> Files for RealFiles<R> {
    ghost tells = { files_tell };

    ghost calls = { λ _. None };

    fn read(&mut self, alloc: Global, path: &Name, most: u64) -> Result<Option<Blob>, FilesFault> {
        let got = read_file(&self.rt, alloc, path, most);
        self.count(got)
    }

    fn exists(&mut self, _alloc: Global, path: &Name) -> Result<bool, FilesFault> {
        let seen = is_there(&self.rt, path);
        self.count(seen)
    }

    fn write(&mut self, alloc: Global, path: &Name, bytes: &[u8]) -> Result<(), FilesFault> {
        let wrote = write_file(&self.rt, alloc, path, bytes);
        self.count(wrote)
    }
}

/// Reads at most one byte more than `most`; returns `None` if there is no file at the path.
fn read_file<R: rt::Files>(
    rt: &R,
    alloc: Global,
    path: &Name,
    most: u64,
) -> Result<Option<Blob>, FilesFault>
    ensures bound { IfOk result (λ got. IfSome got (λ bytes. length bytes ≤ most + 1)) }
{
    match present(fs::open(rt, path_of(path)?))? {
        Some(mut file) => Ok(Some(read_up_to(alloc, &mut file, most)?)),
        None => Ok(None),
    }
}

fn is_there<R: rt::Files>(rt: &R, path: &Name) -> Result<bool, FilesFault> {
    Ok(present(fs::metadata(rt, path_of(path)?))?.is_some())
}

/// Makes the folders above the path that are missing, and then the file.
///
/// A file is replaced, so that the path holds the old bytes or the new ones, whatever fails.
/// What is no file of its own, such as a link or a device, is written where it is.
fn write_file<R: rt::Files>(
    rt: &R,
    alloc: Global,
    path: &Name,
    bytes: &[u8],
) -> Result<(), FilesFault> {
    let path = path_of(path)?;
    if let Some((above, _)) = path.rsplit_once('/') {
        answer(fs::create_dir_all(rt, above))?;
    }
    if is_other(rt, path)? {
        return fill(rt, path, bytes);
    }
    replace(rt, alloc, path, bytes)
}

/// Returns whether there is something at the path that is no file of its own.
fn is_other<R: rt::Files>(rt: &R, path: &str) -> Result<bool, FilesFault> {
    let found = present(fs::symlink_metadata(rt, path))?;
    Ok(found.is_some_and(|what| !what.is_file()))
}

/// Writes a file beside the path, which then takes its place. If that fails, the file beside it goes.
fn replace<R: rt::Files>(
    rt: &R,
    alloc: Global,
    path: &str,
    bytes: &[u8],
) -> Result<(), FilesFault> {
    let Ok(beside) = format!(in alloc; "{path}.new") else {
        return Err(FilesFault::NoMemory);
    };
    let beside = beside.as_str();
    let wrote = put_beside(rt, beside, path, bytes);
    if wrote.is_err() {
        let _gone = fs::remove_file(rt, beside);
    }
    wrote
}

fn put_beside<R: rt::Files>(
    rt: &R,
    beside: &str,
    path: &str,
    bytes: &[u8],
) -> Result<(), FilesFault> {
    fill(rt, beside, bytes)?;
    answer(fs::rename(rt, beside, path))
}

/// Makes the file at the path hold the bytes. If that fails, it may hold some first ones.
fn fill<R: rt::Files>(rt: &R, path: &str, bytes: &[u8]) -> Result<(), FilesFault> {
    let mut file = answer(fs::create(rt, path))?;
    answer(write_whole(&mut file, bytes))
}

/// Returns the path as text. A path that is not UTF-8 is a fault.
fn path_of(path: &Name) -> Result<&str, FilesFault>
    ensures { IfOk result (λ text. text.now ≡ path.entry.now) }
{
    text_of(path).ok_or(FilesFault::Failed)
}

/// Returns what the system returned. Each of its errors is a fault.
fn answer<T>(outcome: io::Result<T>) -> Result<T, FilesFault>
    ensures ok { IfOk outcome (λ got. result ≡ Ok got) }
    ensures failed { OnErr outcome (result ≡ Err FilesCause.Failed) }
{
    outcome.map_err(|_| FilesFault::Failed)
}

/// Returns what the system found; `None` if nothing is at the path,
/// or a part of the path is no folder. Any other error is a fault.
fn present<T>(found: io::Result<T>) -> Result<Option<T>, FilesFault>
    ensures ok { IfOk found (λ file. result ≡ Ok (Some file)) }
    ensures absent { IfErr found (λ e. error_kind e ≡ ErrorKind.NotFound → result ≡ Ok None) }
    ensures below { IfErr found (λ e. error_kind e ≡ ErrorKind.NotADirectory → result ≡ Ok None) }
    ensures failed { IfErr found (λ e. error_kind e ≢ ErrorKind.NotFound → error_kind e ≢ ErrorKind.NotADirectory
        → result ≡ Err FilesCause.Failed) }
{
    match found {
        Ok(file) => Ok(Some(file)),
        Err(e) if e.kind() == ErrorKind::NotFound => Ok(None),
        Err(e) if e.kind() == ErrorKind::NotADirectory => Ok(None),
        Err(_) => Err(FilesFault::Failed),
    }
}
