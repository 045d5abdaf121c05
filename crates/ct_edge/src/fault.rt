ghost use Rattle.std.specs.Prelude.{◌≡◌, ◌↔◌};
ghost use Rattle.ct_base.specs.declared.files.FilesFault.TheVariants as FilesCause;
ghost use Rattle.ct_edge.specs.Process.{IsFaultOf};
ghost use Rattle.ct_edge.specs.declared.fault.StartFault.TheVariants as StartCause;

use ct_base::{FilesFault, NoMemory};
use std::alloc::AllocError;
use std::io;

/// Why a program was not run to its end.
#[derive(Clone, Copy, Debug, PartialEq, Eq)]
pub enum StartFault {
    /// The program could not be started, or could not be waited for.
    Failed,
    /// Memory was wanting.
    NoMemory,
}

impl From<NoMemory> for StartFault {
    ghost from_gives = { λ _ fault. fault ≡ StartCause.NoMemory };

    fn from(_e: NoMemory) -> StartFault {
        StartFault::NoMemory
    }
}

impl From<AllocError> for StartFault {
    ghost from_gives = { λ _ fault. fault ≡ StartCause.NoMemory };

    fn from(_e: AllocError) -> StartFault {
        StartFault::NoMemory
    }
}

impl From<io::Error> for StartFault {
    ghost from_gives = { IsFaultOf };

    fn from(e: io::Error) -> StartFault {
        if e.kind() == io::ErrorKind::OutOfMemory {
            StartFault::NoMemory
        } else {
            StartFault::Failed
        }
    }
}

impl From<FilesFault> for StartFault {
    ghost from_gives = { λ e fault. (fault ≡ StartCause.NoMemory) ↔ (e ≡ FilesCause.NoMemory) };

    fn from(e: FilesFault) -> StartFault {
        match e {
            FilesFault::Failed => StartFault::Failed,
            FilesFault::NoMemory => StartFault::NoMemory,
        }
    }
}
