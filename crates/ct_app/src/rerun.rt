ghost use Rattle.std.specs.Prelude.{◌≡◌, IfOk};
ghost use Rattle.ct_app.specs.Rerun.{ReadsLog, ReadsOnly, names_in_text, wanted_of};

use crate::run_files::{LOG, RunFileFault, fault_at};
use ct_args::Invocation;
use ct_base::{Blob, Files, List, Name, NoMemory, join_path};
use ct_select::failed_names;
use std::alloc::Global;

/// The greatest number of bytes of a log that counts: 64 MiB.
///
/// Source: this project's choice.
const MOST_LOG_BYTES: u64 = 67_108_864;

/// Reads the names that a choice is limited to, if any.
///
/// Where the words ask for the tests that failed last, they are the names in the log of the folder.
/// Else there is no limit.
///
/// Source: CMake manual, ctest(1), --rerun-failed.
#[tactic(auto, using(crate::proofs::RerunLemmas::only_unread))]
pub(crate) fn read_only<F: Files>(
    alloc: Global,
    files: &mut F,
    rerun: bool,
    dir: &Name,
) -> Result<Option<List<Name>>, RunFileFault>
    ensures { ReadsOnly rerun dir.now (F.tells files.old) (F.tells files.new) result }
{
    if rerun {
        Ok(Some(read_log(alloc, files, dir)?))
    } else {
        Ok(None)
    }
}

/// Limits the choice of an invocation to these names, if any.
pub(crate) fn limit_choice(invocation: &mut Invocation, only: Option<List<Name>>)
    ensures { invocation.new ≡ record invocation.old { wanted = wanted_of invocation.old only } }
{
    invocation.wanted.choice.only = only;
}

/// Reads the names in the log of a folder. An absent log, or a log above 64 MiB, counts as empty.
fn read_log<F: Files>(alloc: Global, files: &mut F, dir: &Name) -> Result<List<Name>, RunFileFault>
    ensures { ReadsLog dir.now (F.tells files.old) (F.tells files.new) result }
{
    let path = join_path(alloc, dir, &Name::of(alloc, LOG)?)?;
    match files.read(alloc, &path, MOST_LOG_BYTES) {
        Ok(held) => Ok(names_of(alloc, held)?),
        Err(fault) => Err(fault_at(path, fault)),
    }
}

/// Reads the names in the text at a path, cut at most one byte behind the limit.
fn names_of(alloc: Global, held: Option<Blob>) -> Result<List<Name>, NoMemory>
    ensures { IfOk result (λ names. names ≡ names_in_text held) }
{
    match held {
        Some(text) if text.bytes().len() as u64 <= MOST_LOG_BYTES => {
            failed_names(alloc, text.bytes())
        }
        _ => Ok(List::new(alloc)),
    }
}
