ghost use Rattle.std.specs.Prelude.{◌≡◌, ◌++◌, IfOk, OnOk, fold, map};
ghost use Rattle.ct_base.specs.Entries.{entries_of};
ghost use Rattle.ct_base.specs.Names.{each_once, with_new_name};
ghost use Rattle.ct_props.specs.Values.{text_of_key};

use crate::lists::entries;
use ct_base::{List, Name, NoMemory, Pair};
use indexmap::IndexSet;
use std::alloc::Global;

/// Returns the labels of a test and then those of its folder, each once, at its first place.
#[tactic(auto, using(crate::proofs::LabelLemmas::both_once))]
pub fn labels(
    alloc: Global,
    props: &[Pair],
    key: &[u8],
    of_dir: &[Name],
) -> Result<List<Name>, NoMemory>
    ensures { IfOk result (λ names. names ≡ each_once (entries_of (text_of_key props.now key.now) ++ of_dir.now)) }
{
    let own = entries(alloc, props, key)?;
    let mut labels = IndexSet::new(alloc);
    add_both(alloc, &mut labels, own, of_dir)?;
    names_in(alloc, labels)
}

/// Adds the labels of a test and then those of its folder.
fn add_both(
    alloc: Global,
    labels: &mut IndexSet<Vec<u8>>,
    own: List<Name>,
    of_dir: &[Name],
) -> Result<(), NoMemory>
    ensures { OnOk result (map (λ label. label.items) labels.new.keys
        ≡ fold with_new_name (fold with_new_name (map (λ label. label.items) labels.old.keys) own) of_dir.now) }
{
    add_each(labels, own)?;
    add_copies(alloc, labels, of_dir)
}

/// Adds each of these names, unless it is among the labels.
fn add_each(labels: &mut IndexSet<Vec<u8>>, names: List<Name>) -> Result<(), NoMemory>
    ensures { OnOk result (map (λ label. label.items) labels.new.keys
        ≡ fold with_new_name (map (λ label. label.items) labels.old.keys) names) }
{
    for name in names.into_vec() {
        labels.insert(name.into_vec())?;
    }
    Ok(())
}

/// Adds a copy of each of these names, unless it is among the labels.
fn add_copies(alloc: Global, labels: &mut IndexSet<Vec<u8>>, names: &[Name]) -> Result<(), NoMemory>
    ensures { OnOk result (map (λ label. label.items) labels.new.keys
        ≡ fold with_new_name (map (λ label. label.items) labels.old.keys) names.now) }
{
    for name in names {
        add_copy(alloc, labels, name)?;
    }
    Ok(())
}

/// Adds a copy of a name, unless it is among the labels. Only a new label is copied.
fn add_copy(alloc: Global, labels: &mut IndexSet<Vec<u8>>, name: &Name) -> Result<(), NoMemory>
    ensures { OnOk result (map (λ label. label.items) labels.new.keys
        ≡ with_new_name (map (λ label. label.items) labels.old.keys) name.now) }
{
    if labels.contains(name.bytes()) {
        return Ok(());
    }
    labels.insert(Vec::from_slice(alloc, name.bytes())?)?;
    Ok(())
}

/// Returns the labels that were added, in their order.
fn names_in(alloc: Global, labels: IndexSet<Vec<u8>>) -> Result<List<Name>, NoMemory>
    ensures { IfOk result (λ names. names ≡ map (λ label. label.items) labels.keys) }
{
    let names: Vec<Name> = labels.into_iter().map(Name::from_vec).collect(alloc)?;
    Ok(List::from_vec(names))
}
