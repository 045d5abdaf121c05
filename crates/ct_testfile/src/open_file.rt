ghost use Rattle.std.specs.Prelude.{◌≡◌, Result};
ghost use Rattle.ct_testfile.specs.Outcome.{on_line};
ghost use Rattle.ct_testfile.specs.Says.{Follows, IsAnswerOf, Unfailed};
ghost use Rattle.ct_testfile.specs.declared.fault.ReadKind.{ReadKind as Kind};

use crate::fault::{ReadFault, Stop};
use crate::limits::Limits;
use crate::opening::TestFile;
use std::alloc::Global;

/// A test file that is open, and the limits within which its commands are carried out.
#[derive(Clone, Copy)]
pub(crate) struct OpenFile<'a> {
    pub(crate) alloc: Global,
    pub(crate) limits: &'a Limits,
    pub(crate) file: &'a TestFile,
    /// How many more files may be open inside this one, each inside the one before it.
    pub(crate) more: u32,
}

impl OpenFile<'_> {
    /// Places a refusal on a line of this file.
    pub(crate) fn at_line<T>(&self, line: u32, given: Result<T, Stop>) -> Result<T, ReadFault>
        ensures says { (says : Result T Kind) → Follows given says
            → IsAnswerOf (on_line self.now.file.now.path line says) result }
        ensures unfailed { Unfailed result }
    {
        match given {
            Ok(value) => Ok(value),
            Err(Stop::Refused(kind)) => Err(ReadFault::At {
                file: self.file.path.copy(self.alloc)?,
                line,
                kind,
            }),
            Err(Stop::NoMemory) => Err(ReadFault::NoMemory),
        }
    }
}
