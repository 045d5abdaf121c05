ghost use Rattle.std.specs.Prelude.{IfOk, IfSome};
ghost use Rattle.ct_base.specs.Outside.{Rose};
ghost use Rattle.ct_edge.specs.Required.{IsFirstMissing, IsMissing};

use ct_base::{Files, FilesFault, Name, NoMemory};
use std::alloc::Global;

/// Finds the place, from 0, of the first file that is missing. A file that cannot be looked at is
/// missing.
///
/// Source: CMake manual, cmake-properties(7), REQUIRED_FILES.
pub fn first_missing<F: Files>(
    alloc: Global,
    files: &mut F,
    required: &[Name],
) -> Result<Option<usize>, NoMemory>
    ensures { IfOk result (λ place. IfSome (F.tells files.old).held (λ held.
        IsFirstMissing held required.now (Rose (F.tells files.old).faults (F.tells files.new).faults) place)) }
{
    for (place, path) in required.iter().enumerate() {
        if is_missing(files.exists(alloc, path))? {
            return Ok(Some(place));
        }
    }
    Ok(None)
}

fn is_missing(seen: Result<bool, FilesFault>) -> Result<bool, NoMemory>
    ensures { IfOk result (IsMissing seen) }
{
    match seen {
        Ok(there) => Ok(!there),
        Err(FilesFault::Failed) => Ok(true),
        Err(FilesFault::NoMemory) => Err(NoMemory),
    }
}
