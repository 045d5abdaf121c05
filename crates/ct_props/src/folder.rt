ghost use Rattle.std.specs.Prelude.{◌≡◌, map, IfOk};
ghost use Rattle.ct_base.specs.Path.{joined};
ghost use Rattle.ct_props.specs.Values.{working_dir_in};
ghost use Rattle.ct_props.specs.PropsOf.{working_dir_of, required_files_of};

use crate::lists::entries;
use crate::texts::text_of;
use ct_base::{List, Name, NoMemory, TestDef, join_path};
use std::alloc::Global;

/// Returns the folder in which a test runs: that of its test file, or the one that
/// WORKING_DIRECTORY names.
///
/// Source: CMake manual, cmake-properties(7), WORKING_DIRECTORY.
pub fn working_dir(alloc: Global, def: &TestDef) -> Result<Name, NoMemory>
    ensures { IfOk result (λ folder. folder ≡ working_dir_of def.now) }
{
    below_or_same(
        alloc,
        &def.dir,
        text_of(def.props.as_slice(), b"WORKING_DIRECTORY"),
    )
}

/// Returns the files without which a test does not run, each below the folder in which it runs.
///
/// Source: CMake manual, cmake-properties(7), REQUIRED_FILES.
pub fn required_files(alloc: Global, def: &TestDef) -> Result<List<Name>, NoMemory>
    ensures { IfOk result (λ paths. paths ≡ required_files_of def.now) }
{
    let folder = working_dir(alloc, def)?;
    let names = entries(alloc, def.props.as_slice(), b"REQUIRED_FILES")?;
    all_below(alloc, &folder, names.as_slice())
}

fn below_or_same(alloc: Global, dir: &Name, text: &[u8]) -> Result<Name, NoMemory>
    ensures { IfOk result (λ folder. folder ≡ working_dir_in dir.now text.now) }
{
    match text {
        [] => dir.copy(alloc),
        _ => join_path(alloc, dir, &Name::of(alloc, text)?),
    }
}

fn all_below(alloc: Global, dir: &Name, names: &[Name]) -> Result<List<Name>, NoMemory>
    ensures { IfOk result (λ paths. paths ≡ map (joined dir.now) names.now) }
{
    let mut paths = List::new(alloc);
    for name in names {
        paths.push(join_path(alloc, dir, name)?)?;
    }
    Ok(paths)
}
