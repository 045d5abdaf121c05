ghost use Rattle.std.specs.Prelude.{◌≡◌, ◌∷◌, ◌++◌, ◌^◌, ◌<◌, [], IfOk, codes, true};
ghost use Rattle.ct_history.specs.Verdicts.{are_all_final};
ghost use Rattle.ct_report.specs.PutLines.{PutsLines};
ghost use Rattle.ct_trees.specs.Joining.{AreFinalParts, defined_by};
ghost use Rattle.ct_trees.specs.TreeParts.{AreEnded, entries_of_each};
ghost use Rattle.ct_trees.specs.TreeReports.{header_lines, summaries_behind, summaries_of_parts, tree_lines, tree_summary};

use crate::joining::TreeRest;
use crate::tree_parts::parts_of_trees;
use ct_base::{Blob, NoMemory, Sink, SinkFault};
use ct_history::{History, Plan, PlanParts};
use ct_report::{header, no_tests, summary};
use std::alloc::Global;

/// Puts the header of each tree.
#[tactic(auto, using(crate::proofs::PutTreeLemmas::none_put, crate::proofs::PutTreeLemmas::headers_end, crate::proofs::PutTreeLemmas::header_next))]
pub(crate) fn put_headers<S: Sink>(
    alloc: Global,
    sink: &mut S,
    trees: &[TreeRest],
) -> Result<(), SinkFault>
    ensures { PutsLines (header_lines trees.now) (S.tells sink.old) (S.tells sink.new) result }
{
    for tree in trees {
        header(alloc, sink, &tree.plan)?;
    }
    Ok(())
}

/// Puts the lines of each tree behind those of the tests: a blank line, the folder, and the summary of
/// the tree's part of a history.
#[tactic(auto, using(ct_report::proofs::PutLemmas::lines_none, crate::proofs::PutTreeLemmas::put_by_parts, crate::proofs::PartFileLemmas::each_ended))]
pub(crate) fn put_summaries<S: Sink>(
    alloc: Global,
    sink: &mut S,
    trees: &[TreeRest],
    history: &History,
) -> Result<(), SinkFault>
    requires ended { AreFinalParts 0 trees.now history.now.entries.items }
    requires few { defined_by trees.now < 2 ^ 32 }
    ensures { PutsLines (summaries_behind 0 trees.now history.now.entries.items) (S.tells sink.old) (S.tells sink.new) result }
{
    let parts = parts_of_trees(alloc, trees, history)?;
    put_parts(alloc, sink, trees, parts.as_slice())?;
    Ok(())
}

/// Puts the lines of each tree by the part at the tree's place.
#[tactic(auto, using(crate::proofs::PutTreeLemmas::first_summary, crate::proofs::PutTreeLemmas::all_summaries, crate::proofs::PutTreeLemmas::final_there, crate::proofs::TreeFilesLemmas::part_there))]
fn put_parts<S: Sink>(
    alloc: Global,
    sink: &mut S,
    trees: &[TreeRest],
    parts: &[History],
) -> Result<(), SinkFault>
    requires ended { AreEnded trees.now (entries_of_each parts.now) }
    ensures { PutsLines (summaries_of_parts trees.now (entries_of_each parts.now)) (S.tells sink.old) (S.tells sink.new) result }
{
    for at in 0..trees.len() {
        put_tree(alloc, sink, &trees[at].plan, &parts[at])?;
    }
    Ok(())
}

/// Puts the lines of a tree behind those of all tests.
fn put_tree<S: Sink>(
    alloc: Global,
    sink: &mut S,
    plan: &Plan,
    part: &History,
) -> Result<(), SinkFault>
    requires ended { are_all_final plan.now part.now.entries.items ≡ true }
    ensures { PutsLines (tree_lines plan.now part.now.entries.items) (S.tells sink.old) (S.tells sink.new) result }
{
    let line = tree_line(alloc, plan.parts())?;
    put_line(sink, b"\n")?;
    put_line(sink, line.bytes())?;
    put_summary(alloc, sink, plan, part)?;
    Ok(())
}

/// Puts a line in one put.
#[tactic(auto, using(ct_report::proofs::PutLemmas::one_line))]
fn put_line<S: Sink>(sink: &mut S, line: &[u8]) -> Result<(), SinkFault>
    ensures { PutsLines (line.now ∷ []) (S.tells sink.old) (S.tells sink.new) result }
{
    sink.put(line)?;
    Ok(())
}

fn tree_line(alloc: Global, plan: &PlanParts) -> Result<Blob, NoMemory>
    ensures { IfOk result (λ line. line ≡ codes "Tree: " ++ plan.now.dir ++ codes "\n") }
{
    let mut line = Blob::of(alloc, b"Tree: ")?;
    line.append(plan.dir.bytes())?;
    line.append(b"\n")?;
    Ok(line)
}

/// Puts the summary of a tree, or the line that it has no tests.
fn put_summary<S: Sink>(
    alloc: Global,
    sink: &mut S,
    plan: &Plan,
    part: &History,
) -> Result<(), SinkFault>
    requires ended { are_all_final plan.now part.now.entries.items ≡ true }
    ensures { PutsLines (tree_summary plan.now part.now.entries.items) (S.tells sink.old) (S.tells sink.new) result }
{
    if plan.parts().tests.is_empty() {
        no_tests(sink)?;
        return Ok(());
    }
    summary(alloc, sink, plan, part)?;
    Ok(())
}
