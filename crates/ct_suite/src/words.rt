ghost use Rattle.std.specs.Prelude.{◌≡◌, ◌++◌, [], ◌-◌, ◌^◌, min, ◌∷◌, fold, flat_map, map, option_map, IfOk, OnOk};
ghost use Rattle.std.specs.Vec.Iter.{into_iter_items};
ghost use Rattle.ct_suite.specs.Tests.{is_labels, label_bytes, labels_in, labels_of, prop_bytes};
ghost use Rattle.ct_suite.specs.Words.{is_properties, list_value, names_and_pairs, pairs_behind, pairs_of};
ghost use Rattle.ct_base.specs.Names.{each_once, with_new_name};
ghost use Rattle.ct_suite.specs.Entries.{taken_apart};
ghost use Rattle.ct_suite.specs.Values.{texts};

use crate::value::Value;
use ct_base::{List, Name, NoMemory, Pair, split_list};
use indexmap::IndexSet;
use std::alloc::Global;
use std::vec::IntoIter;

/// Splits off the first value.
pub fn take_apart(values: List<Name>) -> Option<(Name, List<Name>)>
    ensures { result ≡ taken_apart values }
{
    let mut rest = values.into_vec();
    if rest.is_empty() {
        return None;
    }
    let first = rest.remove(0);
    Some((first, List::from_vec(rest)))
}

/// Reads `name .. PROPERTIES key value ..`: the names, and the properties behind them.
pub fn names_and_pairs(
    alloc: Global,
    values: List<Value>,
) -> Result<Option<(List<Name>, List<Pair>)>, NoMemory>
    ensures { IfOk result (λ read. read ≡ names_and_pairs (texts values)) }
{
    let mut names = List::new(alloc);
    let mut rest = values.into_vec().into_iter();
    while let Some(value) = rest.next() {
        if is_properties(&value.text) {
            let pairs = pairs_of(alloc, rest)?;
            return Ok(with_names(names, pairs));
        }
        names.push(value.text)?;
    }
    Ok(None)
}

fn with_names(names: List<Name>, pairs: Option<List<Pair>>) -> Option<(List<Name>, List<Pair>)>
    ensures { result ≡ option_map (λ pairs. (names, pairs)) pairs }
{
    match pairs {
        None => None,
        Some(pairs) => Some((names, pairs)),
    }
}

/// Reads `PROPERTIES key value ..`.
pub fn pairs_behind(alloc: Global, values: List<Value>) -> Result<Option<List<Pair>>, NoMemory>
    ensures { IfOk result (λ pairs. pairs ≡ pairs_behind (texts values)) }
{
    let mut rest = values.into_vec().into_iter();
    let Some(first) = rest.next() else {
        return Ok(None);
    };
    if is_properties(&first.text) {
        return pairs_of(alloc, rest);
    }
    Ok(None)
}

/// Reads `key value ..`; `None` if the last key has no value.
fn pairs_of(alloc: Global, mut rest: IntoIter<Value>) -> Result<Option<List<Pair>>, NoMemory>
    ensures { IfOk result (λ pairs. pairs ≡ pairs_of (texts (into_iter_items rest))) }
{
    let mut pairs = List::from_vec(Vec::with_capacity(alloc, rest.len() / 2)?);
    while let Some(key) = rest.next() {
        let Some(value) = rest.next() else {
            return Ok(None);
        };
        pairs.push(Pair {
            name: key.text,
            value: value.text,
        })?;
    }
    Ok(Some(pairs))
}

fn is_properties(value: &Name) -> bool
    ensures { result ≡ is_properties value.now }
{
    value.bytes() == b"PROPERTIES".as_slice()
}

/// Keeps the first of the names that are equal.
#[tactic(auto, using(crate::proofs::WordLemmas::few_distinct))]
pub fn distinct(alloc: Global, names: List<Name>) -> Result<List<Name>, NoMemory>
    ensures { IfOk result (λ distinct. distinct ≡ each_once names) }
{
    if names.len() < 2 {
        return Ok(names);
    }
    let mut seen = IndexSet::new(alloc);
    insert_each(&mut seen, names)?;
    names_in(alloc, seen)
}

/// Adds names to a set.
fn insert_each(seen: &mut IndexSet<Vec<u8>>, names: List<Name>) -> Result<(), NoMemory>
    ensures { OnOk result (map (λ key. key.items) seen.new.keys ≡ fold with_new_name (map (λ key. key.items) seen.old.keys) names) }
{
    for name in names.into_vec() {
        seen.insert(name.into_vec())?;
    }
    Ok(())
}

/// Returns the names of a set.
fn names_in(alloc: Global, seen: IndexSet<Vec<u8>>) -> Result<List<Name>, NoMemory>
    ensures { IfOk result (λ names. names ≡ map (λ key. key.items) seen.keys) }
{
    let names: Vec<Name> = seen.into_iter().map(Name::from_vec).collect(alloc)?;
    Ok(List::from_vec(names))
}

/// Counts the bytes of the values of properties, at most 2^64 - 1.
pub fn prop_bytes(props: &[Pair]) -> u64
    ensures { result ≡ min (prop_bytes props.now) (2 ^ 64 - 1) }
{
    let mut bytes: u64 = 0;
    for prop in props {
        bytes = bytes.saturating_add(prop.value.bytes().len() as u64);
    }
    bytes
}

fn is_labels(prop: &Pair) -> bool
    ensures { result ≡ is_labels prop.now }
{
    prop.name.bytes() == b"LABELS".as_slice()
}

/// Counts the bytes of the values of LABELS, at most 2^64 - 1.
pub fn label_bytes(props: &[Pair]) -> u64
    ensures { result ≡ min (label_bytes props.now) (2 ^ 64 - 1) }
{
    let mut bytes: u64 = 0;
    for prop in props {
        if is_labels(prop) {
            bytes = bytes.saturating_add(prop.value.bytes().len() as u64);
        }
    }
    bytes
}

/// Returns the entries of the values of LABELS.
pub fn labels_of(alloc: Global, props: &[Pair]) -> Result<List<Name>, NoMemory>
    ensures { IfOk result (λ labels. labels ≡ labels_of props.now) }
{
    let mut labels = Vec::new(alloc);
    for prop in props {
        append_labels(alloc, &mut labels, prop)?;
    }
    Ok(List::from_vec(labels))
}

/// Appends the labels that a property of a folder adds.
fn append_labels(alloc: Global, labels: &mut Vec<Name>, prop: &Pair) -> Result<(), NoMemory>
    ensures { OnOk result (labels.new.items ≡ labels.old.items ++ labels_in prop.now) }
{
    if !is_labels(prop) {
        return Ok(());
    }
    let mut more = split_list(alloc, prop.value.bytes())?.into_vec();
    labels.append(&mut more)?;
    Ok(())
}

/// Joins values with `;` between each two; `None` if there is no value.
///
/// Source: CMake manual, set.
pub fn list_value(alloc: Global, values: &[Name]) -> Result<Option<Name>, NoMemory>
    ensures { IfOk result (λ value. value ≡ list_value values.now) }
{
    let Some(first) = values.first() else {
        return Ok(None);
    };
    let text = joined(alloc, first, &values[1..])?;
    Ok(Some(Name::from_vec(text)))
}

fn joined(alloc: Global, first: &Name, rest: &[Name]) -> Result<Vec<u8>, NoMemory>
    ensures { IfOk result (λ text. text.items ≡ first.now ++ flat_map (λ value. 59 ∷ value) rest.now) }
{
    let mut text = Vec::from_slice(alloc, first.bytes())?;
    for value in rest {
        text.push(b';')?;
        text.extend_from_slice(value.bytes())?;
    }
    Ok(text)
}
