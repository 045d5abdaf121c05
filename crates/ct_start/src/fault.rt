ghost use Rattle.std.specs.Prelude.{◌≡◌, ◌↔◌};
ghost use Rattle.std.specs.IoError.{error_kind};
ghost use Rattle.std.specs.declared.env.VarError.TheVariants as VarCause;
ghost use Rattle.std.specs.declared.io.ErrorKind.TheVariants as ErrorKind;
ghost use Rattle.ct_start.specs.declared.fault.BeginFault.TheVariants as BeginCause;
ghost use Rattle.ct_start.specs.Start.{status_of_fault};

use ct_base::NoMemory;
use std::alloc::{AllocError, AllocFailed};
use std::env::VarError;
use std::io;

/// Why a program could not begin.
#[derive(Clone, Copy, Debug, PartialEq, Eq)]
pub enum BeginFault {
    /// The system did not tell the words or the environment, or told too many words.
    Failed,
    /// Memory was wanting.
    NoMemory,
}

impl BeginFault {
    /// Returns the exit status of a program that could not begin.
    ///
    /// Source: this project's choice.
    pub fn status(self) -> u8
        ensures { result ≡ status_of_fault self }
    {
        match self {
            BeginFault::NoMemory => 5,
            BeginFault::Failed => 6,
        }
    }
}

impl From<NoMemory> for BeginFault {
    ghost from_gives = { λ _ fault. fault ≡ BeginCause.NoMemory };

    fn from(_e: NoMemory) -> BeginFault {
        BeginFault::NoMemory
    }
}

impl From<AllocError> for BeginFault {
    ghost from_gives = { λ _ fault. fault ≡ BeginCause.NoMemory };

    fn from(_e: AllocError) -> BeginFault {
        BeginFault::NoMemory
    }
}

impl<T: Drop> From<AllocFailed<T>> for BeginFault {
    ghost from_gives = { λ _ fault. fault ≡ BeginCause.NoMemory };

    fn from(_e: AllocFailed<T>) -> BeginFault {
        BeginFault::NoMemory
    }
}

impl From<io::Error> for BeginFault {
    ghost from_gives = { λ e fault. (fault ≡ BeginCause.NoMemory) ↔ (error_kind e ≡ ErrorKind.OutOfMemory) };

    fn from(e: io::Error) -> BeginFault {
        if e.kind() == io::ErrorKind::OutOfMemory {
            BeginFault::NoMemory
        } else {
            BeginFault::Failed
        }
    }
}

impl From<VarError> for BeginFault {
    ghost from_gives = { λ e fault. (fault ≡ BeginCause.NoMemory) ↔ (e ≡ VarCause.OutOfMemory) };

    fn from(e: VarError) -> BeginFault {
        if e == VarError::OutOfMemory {
            BeginFault::NoMemory
        } else {
            BeginFault::Failed
        }
    }
}
