ghost use Rattle.std.specs.Prelude.{◌≡◌, ◌∷◌, [], IfOk};
ghost use Rattle.ct_testfile.specs.Commands.{files, folders, no_files, opening_of, test_file};

use ct_base::{List, Name, NoMemory, join_path};
use std::alloc::Global;

/// A test file, and the folder that is current while it is read.
#[derive(Drop)]
pub(crate) struct TestFile {
    pub(crate) path: Name,
    pub(crate) dir: Name,
}

/// A test file that a command opens.
#[derive(Drop)]
pub(crate) struct Opening {
    pub(crate) file: TestFile,
    /// Whether the file is refused if it is absent. If not, it is passed over.
    pub(crate) required: bool,
}

/// What a command opens once it has done all else; nothing if there is no name.
#[derive(Drop)]
pub(crate) struct Opens {
    /// Whether the names are those of files, which have to be there. If not, they are those of folders.
    pub(crate) required: bool,
    pub(crate) names: List<Name>,
}

impl Opens {
    /// Makes the value that opens nothing.
    pub(crate) fn nothing(alloc: Global) -> Opens
        ensures { result ≡ no_files }
    {
        Opens {
            required: false,
            names: List::new(alloc),
        }
    }

    /// Makes the value that opens the test files of these folders.
    pub(crate) fn folders(names: List<Name>) -> Opens
        ensures { result ≡ folders names }
    {
        Opens {
            required: false,
            names,
        }
    }

    /// Makes the value that opens the file of this name.
    pub(crate) fn file(alloc: Global, name: Name) -> Result<Opens, NoMemory>
        ensures { IfOk result (λ opens. opens ≡ files (name ∷ [])) }
    {
        let mut names = List::new(alloc);
        names.push(name)?;
        Ok(Opens {
            required: true,
            names,
        })
    }
}

/// Returns the file that a name means in a folder.
pub(crate) fn opening_of(
    alloc: Global,
    dir: &Name,
    required: bool,
    name: &Name,
) -> Result<Opening, NoMemory>
    ensures { IfOk result (λ opening. opening ≡ opening_of dir.now required name.now) }
{
    let path = join_path(alloc, dir, name)?;
    if required {
        let file = TestFile {
            path,
            dir: dir.copy(alloc)?,
        };
        return Ok(Opening { file, required });
    }
    let file = test_file(alloc, path)?;
    Ok(Opening { file, required })
}

/// Returns the test file of a folder.
pub(crate) fn test_file(alloc: Global, dir: Name) -> Result<TestFile, NoMemory>
    ensures { IfOk result (λ file. file ≡ test_file dir) }
{
    let name = Name::of(alloc, b"CTestTestfile.cmake")?;
    let path = join_path(alloc, &dir, &name)?;
    Ok(TestFile { path, dir })
}
