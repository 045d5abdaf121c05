ghost use Rattle.std.specs.Prelude.{◌≡◌};
ghost use Rattle.std.specs.Option.{option_copied};
ghost use Rattle.ct_app.specs.SpecFile.{Declares, ReadsPath, ReadsSpec};
ghost use Rattle.ct_app.specs.declared.spec_file.SpecFileFault.TheVariants as Cause;

use crate::SpecRefusal;
use ct_base::{Blob, Files, FilesFault, Name, NoMemory};
use ct_spec::{Spec, SpecFault};
use std::alloc::Global;

/// The greatest number of bytes of a specification: 16 MiB.
///
/// Source: this project's choice.
const MOST_SPEC_BYTES: u64 = 16_777_216;

/// Why the resources were not read from the file that declares those of the machine.
#[derive(Debug, Drop)]
pub enum SpecFileFault {
    /// The file is refused.
    Refused(SpecRefusal),
    /// The path could not be read.
    Failed { path: Name },
    /// Memory ran out.
    NoMemory,
}

impl From<NoMemory> for SpecFileFault {
    ghost from_gives = { λ _ e. e ≡ Cause.NoMemory };

    fn from(_e: NoMemory) -> SpecFileFault {
        SpecFileFault::NoMemory
    }
}

impl From<SpecFault> for SpecFileFault {
    ghost use Rattle.ct_app.specs.Outcome.{fault_of_spec};

    ghost from_gives = { λ fault e. e ≡ fault_of_spec fault };

    fn from(fault: SpecFault) -> SpecFileFault {
        match fault {
            SpecFault::NoMemory => SpecFileFault::NoMemory,
            fault => SpecFileFault::Refused(SpecRefusal::Fault(fault)),
        }
    }
}

/// Reads the resources that the machine lends from the named file; `None` where no file is named.
///
/// A file that is absent, has more than 16 MiB or is no specification is refused. The files stay as
/// they are.
///
/// Source: CMake manual, ctest(1), --resource-spec-file. The limit is this project's choice.
#[tactic(auto, using(crate::proofs::SpecLemmas::named_unread))]
pub fn read_spec<F: Files>(
    alloc: Global,
    files: &mut F,
    file: Option<&Name>,
) -> Result<Option<Spec>, SpecFileFault>
    ensures { ReadsSpec (option_copied file.entry) (F.tells files.old) (F.tells files.new) result }
{
    match file {
        None => Ok(None),
        Some(path) => Ok(Some(read_path(alloc, files, path)?)),
    }
}

fn read_path<F: Files>(alloc: Global, files: &mut F, path: &Name) -> Result<Spec, SpecFileFault>
    ensures { ReadsPath path.now (F.tells files.old) (F.tells files.new) result }
{
    let path = path.copy(alloc)?;
    match files.read(alloc, &path, MOST_SPEC_BYTES) {
        Ok(held) => spec_in(alloc, held),
        Err(FilesFault::Failed) => Err(SpecFileFault::Failed { path }),
        Err(FilesFault::NoMemory) => Err(SpecFileFault::NoMemory),
    }
}

/// Reads the specification in the text at a path, cut at most one byte behind the limit.
#[tactic(auto, using(crate::proofs::SpecLemmas::text_declares, crate::proofs::SpecLemmas::text_refused))]
fn spec_in(alloc: Global, held: Option<Blob>) -> Result<Spec, SpecFileFault>
    ensures { Declares held result }
{
    match held {
        None => Err(SpecFileFault::Refused(SpecRefusal::Absent)),
        Some(text) if text.bytes().len() as u64 > MOST_SPEC_BYTES => {
            Err(SpecFileFault::Refused(SpecRefusal::TooLong))
        }
        Some(text) => Ok(Spec::parse(alloc, text.bytes())?),
    }
}
