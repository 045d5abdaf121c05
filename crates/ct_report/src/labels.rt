ghost use Rattle.std.specs.Prelude.{◌≡◌, ◌<◌, ◌-◌, ◌^◌, ◌++◌, ◌∷◌, [], map, fold, IfOk, OnOk};
ghost use Rattle.std.specs.Ordering.{nat_cmp};
ghost use Rattle.std.specs.Cmp.Lexicographic.{slice_cmp};
ghost use Rattle.std.specs.BTreeSet.{insert_key};
ghost use Rattle.ct_report.specs.Labels.{CountsLabel, CountsLabels, CountsTest, CanCountMore, label_count, kept_labels};
ghost use Rattle.ct_alloc.specs.NamesInOrder.{names_in_order};
ghost use Rattle.ct_report.specs.Report.{label_line, labels_in_order};

use crate::numbers::append_number_and;
use ct_base::{Blob, List, Name, NoMemory};
use ct_history::PlanTest;
use std::alloc::Global;
use std::collections::{BTreeMap, BTreeSet};

/// How many tests have each label.
pub(crate) type LabelCounts = BTreeMap<Vec<u8>, usize>;

/// Gathers the labels of the tests that are not disabled, each once, in byte order.
#[tactic(auto, using(crate::proofs::LabelLemmas::fold_behind))]
pub(crate) fn labels_in_order(alloc: Global, tests: &[PlanTest]) -> Result<List<Name>, NoMemory>
    ensures { IfOk result (λ labels. labels ≡ labels_in_order tests.now) }
{
    let mut labels = BTreeSet::new(alloc);
    for test in tests {
        if !test.disabled {
            put_labels(&mut labels, test.labels.as_slice())?;
        }
    }
    names_of(alloc, labels)
}

/// Gathers these labels, each once, in byte order.
pub(crate) fn in_order(alloc: Global, labels: &[Name]) -> Result<List<Name>, NoMemory>
    ensures { IfOk result (λ ordered. ordered ≡ names_in_order labels.now) }
{
    let mut kept = BTreeSet::new(alloc);
    put_labels(&mut kept, labels)?;
    names_of(alloc, kept)
}

fn put_labels<'a>(labels: &mut BTreeSet<&'a [u8]>, names: &'a [Name]) -> Result<(), NoMemory>
    ensures { OnOk result (kept_labels labels.new.keys ≡ fold (insert_key (slice_cmp nat_cmp)) (kept_labels labels.old.keys) names.now) }
{
    for name in names {
        put_label(labels, name)?;
    }
    Ok(())
}

fn put_label<'a>(labels: &mut BTreeSet<&'a [u8]>, name: &'a Name) -> Result<(), NoMemory>
    ensures { OnOk result (kept_labels labels.new.keys ≡ insert_key (slice_cmp nat_cmp) (kept_labels labels.old.keys) name.now) }
{
    labels.insert(name.bytes())?;
    Ok(())
}

fn names_of(alloc: Global, labels: BTreeSet<&[u8]>) -> Result<List<Name>, NoMemory>
    ensures { IfOk result (λ names. names ≡ kept_labels labels.entry.keys) }
{
    let mut names = List::new(alloc);
    for label in labels {
        names.push(Name::of(alloc, label)?)?;
    }
    Ok(names)
}

/// Counts the test at each of its labels, if it is wanted.
pub(crate) fn count_test(
    alloc: Global,
    counts: &mut LabelCounts,
    wanted: bool,
    test: &PlanTest,
) -> Result<(), NoMemory>
    requires room { CanCountMore counts.old }
    ensures { OnOk result (CountsTest wanted test.now counts.old counts.new) }
{
    if wanted {
        count_labels(alloc, counts, test.labels.as_slice())
    } else {
        Ok(())
    }
}

fn count_labels(alloc: Global, counts: &mut LabelCounts, labels: &[Name]) -> Result<(), NoMemory>
    requires room { CanCountMore counts.old }
    ensures { OnOk result (CountsLabels labels.now counts.old counts.new) }
{
    let mut seen = BTreeSet::new(alloc);
    for label in labels {
        let is_new = seen.insert(label.bytes())?;
        if is_new {
            count_label(alloc, counts, label)?;
        }
    }
    Ok(())
}

fn count_label(alloc: Global, counts: &mut LabelCounts, label: &Name) -> Result<(), NoMemory>
    requires room { label_count counts.old label.now < 2 ^ 64 - 1 }
    ensures { OnOk result (CountsLabel label.now counts.old counts.new) }
{
    match counts.get_mut(label.bytes()) {
        Some(count) => {
            *count += 1;
            Ok(())
        }
        None => {
            counts.insert(Vec::from_slice(alloc, label.bytes())?, 1)?;
            Ok(())
        }
    }
}

fn count_of(counts: &LabelCounts, label: &Name) -> usize
    ensures { result ≡ label_count counts.now label.now }
{
    counts.get(label.bytes()).copied().unwrap_or(0)
}

/// Writes the line of each of these labels.
pub(crate) fn lines_of_labels(
    alloc: Global,
    labels: &[Name],
    good: &LabelCounts,
    all: &LabelCounts,
) -> Result<List<Blob>, NoMemory>
    ensures { IfOk result (λ lines. lines ≡ map (λ label. label_line label (label_count good.now label) (label_count all.now label)) labels.now) }
{
    let mut lines = List::new(alloc);
    for label in labels {
        lines.push(label_line(alloc, label, count_of(good, label), count_of(all, label))?)?;
    }
    Ok(lines)
}

fn label_line(alloc: Global, label: &Name, good: usize, all: usize) -> Result<Blob, NoMemory>
    ensures { IfOk result (λ text. text ≡ label_line label.now good all) }
{
    let mut text = Blob::of(alloc, label.bytes())?;
    text.append(b" = ")?;
    append_number_and(alloc, &mut text, good as u128, b"/")?;
    append_number_and(alloc, &mut text, all as u128, b"\n")?;
    Ok(text)
}
