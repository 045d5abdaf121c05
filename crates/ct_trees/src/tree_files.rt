ghost use Rattle.std.specs.Prelude.{◌≡◌, ◌≤◌, ◌^◌, true, IfOk, length};
ghost use Rattle.ct_app.specs.RunFiles.{done_of};
ghost use Rattle.ct_history.specs.Legal.{has_failing};
ghost use Rattle.ct_history.specs.Verdicts.{are_all_final};
ghost use Rattle.ct_trees.specs.TreeFiles.{WritesTexts, texts_of_parts, tree_texts};
ghost use Rattle.ct_trees.specs.TreeParts.{AreEnded, entries_of_each, some_failing};

use crate::joining::TreeRest;
use ct_app::{RunFileFault, write_files};
use ct_base::{Files, Name};
use ct_history::History;
use std::alloc::Global;

/// Why the files of several trees could not all be written.
#[derive(Drop)]
pub(crate) enum TreeFileFault {
    /// The path, of the tree at this place, counted from 0, could not be written.
    Failed { tree: u32, path: Name },
    /// Memory ran out.
    NoMemory,
}

/// Writes the files of each tree after a complete run: its cost data, and then, if a test of it failed,
/// its log. A tree without tests in its plan writes nothing.
///
/// The part at a place is that of the tree at the place. It returns whether a test of some tree failed.
///
/// Source: CMake manual, ctest(1), --rerun-failed; cmake-properties(7), COST, for each tree.
#[tactic(auto, using(crate::proofs::TreeFilesLemmas::first_tree, crate::proofs::TreeFilesLemmas::all_trees, crate::proofs::TreeFilesLemmas::all_failed))]
pub(crate) fn write_tree_files<F: Files>(
    alloc: Global,
    files: &mut F,
    trees: &[TreeRest],
    parts: &[History],
) -> Result<bool, TreeFileFault>
    requires few { length trees.now ≤ 2 ^ 32 }
    requires ended { AreEnded trees.now (entries_of_each parts.now) }
    ensures written { WritesTexts (texts_of_parts 0 trees.now (entries_of_each parts.now)) (F.tells files.old) (F.tells files.new) (done_of result) }
    ensures failed { IfOk result (λ failed. failed ≡ some_failing trees.now (entries_of_each parts.now)) }
{
    let mut failed = false;
    for at in 0..trees.len() {
        failed |= write_tree(alloc, files, &trees[at], &parts[at], at as u32)?;
    }
    Ok(failed)
}

/// Writes the files of the tree at this place, counted from 0, and returns whether a test of it failed.
fn write_tree<F: Files>(
    alloc: Global,
    files: &mut F,
    tree: &TreeRest,
    part: &History,
    place: u32,
) -> Result<bool, TreeFileFault>
    requires ended { are_all_final tree.now.plan part.now.entries.items ≡ true }
    ensures written { WritesTexts (tree_texts place tree.now part.now.entries.items) (F.tells files.old) (F.tells files.new) (done_of result) }
    ensures failed { IfOk result (λ failed. failed ≡ has_failing tree.now.plan part.now.entries.items) }
{
    match write_files(alloc, files, &tree.costs, &tree.plan, part) {
        Ok(failed) => Ok(failed),
        Err(RunFileFault::Failed { path }) => Err(TreeFileFault::Failed { tree: place, path }),
        Err(RunFileFault::NoMemory) => Err(TreeFileFault::NoMemory),
    }
}
