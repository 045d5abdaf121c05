ghost use Rattle.std.specs.Prelude.{◌≡◌, ◌<◌, ◌≤◌, ◌^◌, ◌==◌, IfOk, OnOk, if◌then◌else◌, length};
ghost use Rattle.std.specs.List.{list_any};
ghost use Rattle.ct_app.specs.RunFiles.{done_of};
ghost use Rattle.ct_trees.specs.Joining.{AreFinalParts, defined_by};
ghost use Rattle.ct_trees.specs.TreeEnds.{EndsWithTrees, lacks_tests as lack_tests};
ghost use Rattle.ct_trees.specs.TreeFiles.{WritesTexts, texts_behind};
ghost use Rattle.ct_trees.specs.TreeParts.{parts_behind, some_failing};

use crate::joining::TreeRest;
use crate::tree_files::{TreeFileFault, write_tree_files};
use crate::tree_parts::parts_of_trees;
use ct_app::Outcome;
use ct_base::{Files, NoMemory};
use ct_history::History;
use std::alloc::Global;

/// How a call over several trees ended, and the tree at which a write failed, from 0.
#[derive(Drop)]
pub(crate) struct WrittenEnd {
    /// The status of a complete run, or the outcome of any other call.
    pub(crate) ended: Result<u8, Outcome>,
    pub(crate) tree: Option<u32>,
}

/// Writes the files of a complete run, and returns the status of the run: 8 where a test failed, or a
/// tree has no test and that is an error, else 0.
///
/// A run that ended early keeps its outcome, and its files stay.
///
/// Source: CMake manual, ctest(1), Description, --no-tests, for one tree.
pub(crate) fn leave_files<F: Files>(
    alloc: Global,
    files: &mut F,
    empty_is_error: bool,
    trees: &[TreeRest],
    history: &History,
    ended: Result<(), Outcome>,
) -> WrittenEnd
    requires complete { OnOk ended (AreFinalParts 0 trees.now history.now.entries.items) }
    requires few { defined_by trees.now < 2 ^ 32 }
    requires places { length trees.now ≤ 2 ^ 32 }
    ensures { EndsWithTrees empty_is_error trees.now history.now.entries.items (F.tells files.old) (F.tells files.new) ended result.tree result.ended }
{
    if let Err(outcome) = ended {
        return WrittenEnd {
            ended: Err(outcome),
            tree: None,
        };
    }
    match write_parts(alloc, files, trees, history) {
        Ok(failed) => WrittenEnd {
            ended: Ok(status(failed || lacks_tests(empty_is_error, trees))),
            tree: None,
        },
        Err(TreeFileFault::Failed { tree, path }) => WrittenEnd {
            ended: Err(Outcome::FilesFault { path }),
            tree: Some(tree),
        },
        Err(TreeFileFault::NoMemory) => WrittenEnd {
            ended: Err(Outcome::Memory),
            tree: None,
        },
    }
}

/// Writes the files of each tree by its part of a history, and returns whether a test failed.
#[tactic(auto, using(crate::proofs::PartFileLemmas::each_ended, crate::proofs::PartFileLemmas::none_left))]
fn write_parts<F: Files>(
    alloc: Global,
    files: &mut F,
    trees: &[TreeRest],
    history: &History,
) -> Result<bool, TreeFileFault>
    requires complete { AreFinalParts 0 trees.now history.now.entries.items }
    requires few { defined_by trees.now < 2 ^ 32 }
    requires places { length trees.now ≤ 2 ^ 32 }
    ensures written { WritesTexts (texts_behind trees.now history.now.entries.items) (F.tells files.old) (F.tells files.new) (done_of result) }
    ensures failed { IfOk result (λ failed. failed ≡ some_failing trees.now (parts_behind 0 trees.now history.now.entries.items)) }
{
    match parts_of_trees(alloc, trees, history) {
        Ok(parts) => write_tree_files(alloc, files, trees, parts.as_slice()),
        Err(NoMemory) => Err(TreeFileFault::NoMemory),
    }
}

/// Returns the status of a complete run.
fn status(failed: bool) -> u8
    ensures { result ≡ (if failed then 8 else 0) }
{
    if failed { 8 } else { 0 }
}

/// Returns whether some tree has no test in its plan, and that is an error.
fn lacks_tests(empty_is_error: bool, trees: &[TreeRest]) -> bool
    ensures { result ≡ lack_tests empty_is_error trees.now }
{
    empty_is_error && some_empty(trees)
}

fn some_empty(trees: &[TreeRest]) -> bool
    ensures { result ≡ list_any (λ tree. length tree.plan.tests == 0) trees.now }
{
    trees.iter().any(|tree| is_empty(tree))
}

fn is_empty(tree: &TreeRest) -> bool
    ensures { result ≡ (length tree.now.plan.tests == 0) }
{
    tree.plan.parts().tests.is_empty()
}
