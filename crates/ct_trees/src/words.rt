ghost use Rattle.std.specs.Prelude.{◌≡◌, ◌+◌, ◌-◌, ◌*◌, ◌^◌, ◌<◌, ◌≤◌, [], drop, length, IfOk, OnOk, Ok};
ghost use Rattle.std.specs.Option.{option_copied};
ghost use Rattle.ct_args.specs.declared.usage.UsageFault.TheVariants.{At as fault_at};
ghost use Rattle.ct_args.specs.Invocation.{IsBounded, invocation_seen};
ghost use Rattle.ct_args.specs.Read.{IsRead};
ghost use Rattle.ct_app.specs.Reading.{is_list as is_a_list};
ghost use Rattle.ct_trees.specs.TreeWords.{begins_tree as begins_with_tree, dir_fault as fault_of_dir, fault_behind as fault_shifted, front_dir as dir_at_front, place_behind_trees, trees_in, trees_seen, wanted_behind as wanted_after};
ghost use Rattle.ct_trees.specs.TreeReading.{FitsBehind, behind_or_fault, dirs_or_fault};

use ct_args::{Invocation, Task, UsageFault, UsageKind, read_words};
use ct_base::{List, Name, is_among};
use std::alloc::Global;

/// The word in front of the folder of a tree.
const TREE: &[u8] = b"--tree";

/// The greatest number of trees.
///
/// Source: this project's choice.
const MOST_TREES: usize = 64;

/// What the words of a call over several build trees ask for.
#[derive(Drop)]
pub struct Trees {
    /// The folders of the trees, at least one and at most 64, each once.
    pub dirs: List<Name>,
    /// What is wanted of each tree. Its own folder counts for nothing.
    pub invocation: Invocation,
}

/// Reads the words of a call over several build trees, or finds the first that is refused.
///
/// The words are one or more times `--tree` and a folder, and then words of ctest, whose places count
/// on. That the words ask for a list, or for the tests that failed last, is refused at word 0.
///
/// Source: CMake manual, ctest(1), Options, for the words of ctest; else this project's choice.
#[tactic(auto, using(crate::proofs::WordLemmas::dirs_within, crate::proofs::WordLemmas::dirs_unread, crate::proofs::WordLemmas::behind_unread, crate::proofs::WordLemmas::all_read))]
pub fn read_trees(alloc: Global, words: &[Name]) -> Result<Trees, UsageFault>
    requires few { length words.now < 2 ^ 32 - 1 }
    ensures exact { IsRead trees_seen (trees_in words.now) result }
    ensures bounds { IfOk result (λ read. IsBounded read.invocation) }
    ensures some { IfOk result (λ read. 0 < length read.dirs) }
    ensures few { IfOk result (λ read. length read.dirs < 2 ^ 32) }
{
    let dirs = read_dirs(alloc, words)?;
    let invocation = read_behind(alloc, &words[2 * dirs.len()..], dirs.len())?;
    Ok(Trees { dirs, invocation })
}

/// Reads the folders of the trees at the front of the words.
#[tactic(auto, using(crate::proofs::WordLemmas::dirs_end, crate::proofs::WordLemmas::dirs_bad))]
fn read_dirs(alloc: Global, words: &[Name]) -> Result<List<Name>, UsageFault>
    requires few { length words.now < 2 ^ 32 - 1 }
    ensures { IsRead (λ dirs. dirs) (dirs_or_fault [] words.now) result }
{
    let mut dirs = List::new(alloc);
    'trees: while let Some(dir) = front_dir(&words[2 * dirs.len()..]) {
        if let Some(fault) = dir_fault(dirs.as_slice(), dir) {
            return Err(fault);
        }
        dirs.push(dir.copy(alloc)?)?;
    }
    Ok(dirs)
}

/// Finds the folder of the tree that the words begin with, if they do.
fn front_dir(words: &[Name]) -> Option<&Name>
    ensures { option_copied result ≡ dir_at_front words.now }
{
    match words {
        [word, dir, ..] if word.bytes() == TREE => Some(dir),
        _ => None,
    }
}

/// The fault of a folder behind these, if it has one: it is one too many, or one of them.
fn dir_fault(before: &[Name], dir: &Name) -> Option<UsageFault>
    requires few { length before.now < 2 ^ 31 - 1 }
    ensures { result ≡ fault_of_dir before.now dir.now }
{
    if before.len() >= MOST_TREES {
        Some(tree_fault(before.len(), UsageKind::BadNumber))
    } else if is_among(dir, before) {
        Some(tree_fault(before.len(), UsageKind::Twice))
    } else {
        None
    }
}

/// The fault of the `--tree` behind so many trees.
fn tree_fault(trees: usize, kind: UsageKind) -> UsageFault
    requires few { trees < 2 ^ 31 - 1 }
    ensures { result ≡ fault_at (place_behind_trees trees) kind }
{
    UsageFault::At {
        word: 1 + 2 * trees as u32,
        kind,
    }
}

/// Reads the words of ctest behind so many trees.
fn read_behind(alloc: Global, behind: &[Name], trees: usize) -> Result<Invocation, UsageFault>
    requires few { 2 * trees + length behind.now < 2 ^ 32 - 1 }
    ensures exact { IsRead invocation_seen (behind_or_fault trees behind.now) result }
    ensures bounds { IfOk result IsBounded }
    ensures some { OnOk result (0 < trees) }
{
    if trees == 0 || begins_tree(behind) {
        return Err(tree_fault(trees, UsageKind::NoValue));
    }
    match read_words(alloc, behind) {
        Ok(invocation) => for_run(invocation),
        Err(fault) => Err(fault_behind(2 * trees as u32, fault)),
    }
}

/// Returns whether the words begin with a tree.
fn begins_tree(words: &[Name]) -> bool
    ensures { result ≡ begins_with_tree words.now }
{
    match words {
        [] => false,
        [word, ..] => word.bytes() == TREE,
    }
}

/// Passes an invocation that asks for a run, and refuses any other.
fn for_run(invocation: Invocation) -> Result<Invocation, UsageFault>
    requires bounded { IsBounded invocation }
    ensures exact { IsRead invocation_seen (wanted_after 0 (Ok (invocation_seen invocation))) result }
    ensures bounds { IfOk result IsBounded }
{
    if invocation.rerun || is_list(invocation.task) {
        return Err(UsageFault::At {
            word: 0,
            kind: UsageKind::BadMode,
        });
    }
    Ok(invocation)
}

fn is_list(task: Task) -> bool
    ensures { result ≡ is_a_list task }
{
    match task {
        Task::Run => false,
        Task::ListTests | Task::ListLabels | Task::ListJson => true,
    }
}

/// The fault of a word behind so many others, by its fault among its own words.
fn fault_behind(count: u32, fault: UsageFault) -> UsageFault
    requires fits { FitsBehind count fault }
    ensures { result ≡ fault_shifted count fault }
{
    match fault {
        UsageFault::At { word, kind } => UsageFault::At {
            word: word + count,
            kind,
        },
        UsageFault::NoMemory => UsageFault::NoMemory,
    }
}
