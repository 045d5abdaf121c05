ghost use Rattle.std.specs.Prelude.{◌≡◌};
ghost use Rattle.ct_testfile.specs.Says.{files_fault, stop_for};
ghost use Rattle.ct_testfile.specs.declared.fault.ReadFault.TheVariants as Cause;
ghost use Rattle.ct_testfile.specs.declared.fault.Stop.TheVariants as Stopped;

use ct_base::{FilesFault, Name, NoMemory};
use ct_suite::ValueFault;

/// What is wrong with a test file.
#[derive(Clone, Copy, Debug, PartialEq, Eq)]
pub enum ReadKind {
    /// The text ends in a quoted argument, which began on that line.
    OpenString,
    /// The text ends in a bracket argument or a bracket comment, which began on that line.
    OpenBracket,
    /// The text ends in a command, whose name stands on that line.
    OpenCall,
    /// A backslash in front of a byte that it cannot escape.
    BadEscape,
    /// A byte that can begin neither a command nor an argument at its place.
    BadChar,
    /// A `${` without a name and `}` behind it, or `$ENV{` or `$CACHE{`.
    BadReference,
    /// A command that a test file may not use.
    UnknownCommand,
    /// Arguments that the command does not take.
    BadCall,
    /// The file that `include` names is absent.
    MissingInclude,
    /// An `elseif`, `else` or `endif` that belongs to no `if`, or an `if` that its file does not end.
    UnpairedIf,
    /// A condition that is neither `EXISTS` nor `MATCHES`.
    BadCondition,
    /// The pattern of a `MATCHES` is no regular expression.
    BadPattern,
    /// More files are open inside one another than the limit allows.
    TooDeep,
    /// More tests are defined than the limit allows.
    TooManyTests,
    /// More commands are carried out than the limit allows.
    TooManyCommands,
    /// A file, a value, or all of them together have more bytes than the limit allows.
    TooLong,
}

/// Why the tests of a tree could not be read.
#[derive(Debug, Drop)]
pub enum ReadFault {
    /// A line of a test file, counted from 1, or the file as a whole at line 0.
    At {
        file: Name,
        line: u32,
        kind: ReadKind,
    },
    /// A call on the files failed for this path.
    FilesFailed {
        path: Name,
    },
    /// Memory was wanting.
    NoMemory,
}

impl From<NoMemory> for ReadFault {
    ghost from_gives = { λ _ e. e ≡ Cause.NoMemory };

    fn from(_e: NoMemory) -> ReadFault {
        ReadFault::NoMemory
    }
}

/// Why a command was not carried out, in a file and on a line that the caller knows.
#[derive(Clone, Copy)]
pub(crate) enum Stop {
    Refused(ReadKind),
    NoMemory,
}

impl From<NoMemory> for Stop {
    ghost from_gives = { λ _ e. e ≡ Stopped.NoMemory };

    fn from(_e: NoMemory) -> Stop {
        Stop::NoMemory
    }
}

impl From<ValueFault> for Stop {
    ghost from_gives = { λ fault e. e ≡ stop_for fault };

    fn from(fault: ValueFault) -> Stop {
        match fault {
            ValueFault::TooLong => Stop::Refused(ReadKind::TooLong),
            ValueFault::NoMemory => Stop::NoMemory,
        }
    }
}

/// Returns the fault of a call on files, about this path.
pub(crate) fn files_fault(path: Name, fault: FilesFault) -> ReadFault
    ensures { result ≡ files_fault path fault }
{
    match fault {
        FilesFault::Failed => ReadFault::FilesFailed { path },
        FilesFault::NoMemory => ReadFault::NoMemory,
    }
}
