ghost use Rattle.std.specs.Prelude.{◌≡◌, ◌++◌, [], IfOk, IsTrue, OnOk, map};
ghost use Rattle.std.specs.List.{prefix_len};
ghost use Rattle.ct_suite.specs.Tests.{with_prop, with_props};
ghost use Rattle.ct_suite.specs.Props.{is_other, prop_of};

use ct_base::{List, Name, NoMemory, Pair};
use indexmap::IndexMap;
use std::alloc::Global;
use std::marker::Model;
use std::mem;

/// How many properties of a test are looked up one by one.
const MOST_RECENT: usize = 16;

/// The values of properties by their keys, in the order of first use.
type Keyed = IndexMap<Vec<u8>, Name>;

/// The properties of a test so far. Contracts see one pair for each key, in the order of first use.
#[derive(Drop)]
pub(crate) struct Props {
    /// The properties that were set first, by their keys; `None` if there are few, as in most tests.
    keyed: Option<Box<Keyed>>,
    /// The properties that were set after them, in turn.
    recent: Vec<Pair>,
}

impl Model for Props {
    ghost use Rattle.std.specs.Prelude.{List, [], map};
    ghost use Rattle.std.specs.Option.{option_map_or};
    ghost use Rattle.ct_base.specs.declared.defs.Pair.{Pair};
    ghost use Rattle.ct_suite.specs.Tests.{with_props};
    ghost use Rattle.ct_suite.specs.Props.{prop_of};

    ghost Value = { List Pair };

    ghost view = { λ p. with_props (option_map_or (λ keyed. map prop_of keyed.value.entries) p.keyed []) p.recent.items };
}

impl Props {
    pub(crate) fn new(alloc: Global) -> Props
        ensures { result ≡ [] }
    {
        Props {
            keyed: None,
            recent: Vec::new(alloc),
        }
    }

    /// Sets properties in turn: each takes the place of the one with its key, or goes to the end.
    pub(crate) fn set(&mut self, alloc: Global, pairs: List<Pair>) -> Result<(), NoMemory>
        ensures { OnOk result (self.new ≡ with_props self.old pairs) }
    {
        put_behind(&mut self.recent, pairs.into_vec())?;
        if self.recent.len() <= MOST_RECENT {
            return Ok(());
        }
        self.key_recent(alloc)
    }

    /// Puts the properties that were set last among those that are kept by their keys.
    fn key_recent(&mut self, alloc: Global) -> Result<(), NoMemory>
        ensures { OnOk result (self.new ≡ self.old) }
    {
        let mut keyed = match self.keyed.take() {
            Some(keyed) => keyed,
            None => Box::new(alloc, IndexMap::new(alloc))?,
        };
        put_each(&mut keyed, mem::replace(&mut self.recent, Vec::new(alloc)))?;
        self.keyed = Some(keyed);
        Ok(())
    }

    /// Returns the properties, which can no longer be set.
    pub(crate) fn into_pairs(self, alloc: Global) -> Result<List<Pair>, NoMemory>
        ensures { IfOk result (λ pairs. pairs ≡ self) }
    {
        let Props { keyed, recent } = self;
        match keyed {
            None => in_turn(alloc, recent),
            Some(mut keyed) => {
                put_each(&mut keyed, recent)?;
                pairs_of(alloc, Box::into_inner(keyed))
            }
        }
    }
}

/// Appends properties to others.
fn put_behind(pairs: &mut Vec<Pair>, mut more: Vec<Pair>) -> Result<(), NoMemory>
    ensures { OnOk result (pairs.new.items ≡ pairs.old.items ++ more.items) }
{
    if pairs.is_empty() {
        *pairs = more;
        return Ok(());
    }
    pairs.append(&mut more)?;
    Ok(())
}

/// Sets properties in turn, by their keys.
fn put_each(keyed: &mut Keyed, pairs: Vec<Pair>) -> Result<(), NoMemory>
    ensures { OnOk result (map prop_of keyed.new.entries ≡ with_props (map prop_of keyed.old.entries) pairs.items) }
{
    for pair in pairs {
        put(keyed, pair)?;
    }
    Ok(())
}

fn put(keyed: &mut Keyed, pair: Pair) -> Result<(), NoMemory>
    ensures { OnOk result (map prop_of keyed.new.entries ≡ with_prop (map prop_of keyed.old.entries) pair) }
{
    let Pair { name, value } = pair;
    keyed.insert(name.into_vec(), value)?;
    Ok(())
}

fn pairs_of(alloc: Global, props: Keyed) -> Result<List<Pair>, NoMemory>
    ensures { IfOk result (λ pairs. pairs ≡ map prop_of props.entries) }
{
    let pairs: Vec<Pair> = props.into_iter().map(pair_of).collect(alloc)?;
    Ok(List::from_vec(pairs))
}

fn pair_of(entry: (Vec<u8>, Name)) -> Pair
    ensures { result ≡ prop_of entry }
{
    let (key, value) = entry;
    Pair {
        name: Name::from_vec(key),
        value,
    }
}

/// Returns the properties that are left after setting these in turn. Each one is looked up among
/// those before it.
fn in_turn(alloc: Global, pairs: Vec<Pair>) -> Result<List<Pair>, NoMemory>
    ensures { IfOk result (λ props. props ≡ with_props [] pairs.items) }
{
    if have_own_keys(pairs.as_slice()) {
        return Ok(List::from_vec(pairs));
    }
    let mut props = Vec::with_capacity(alloc, pairs.len())?;
    for pair in pairs {
        set_prop(&mut props, pair)?;
    }
    Ok(List::from_vec(props))
}

/// Returns whether no two properties have the same key. Setting them in turn then leaves them as they are.
fn have_own_keys(pairs: &[Pair]) -> bool
    ensures { IsTrue result → with_props [] pairs.now ≡ pairs.now }
{
    for at in 0..pairs.len() {
        if others(&pairs[..at], &pairs[at].name) < at {
            return false;
        }
    }
    true
}

fn set_prop(props: &mut Vec<Pair>, pair: Pair) -> Result<(), NoMemory>
    ensures { OnOk result (props.new.items ≡ with_prop props.old.items pair) }
{
    let at = others(props.as_slice(), &pair.name);
    if at < props.len() {
        props[at] = pair;
        return Ok(());
    }
    props.push(pair)?;
    Ok(())
}

/// Counts the properties in front of the first one with a key; all of them if no property has it.
fn others(props: &[Pair], key: &Name) -> usize
    ensures { result ≡ prefix_len (is_other key.now) props.now }
{
    props.iter().take_while(|prop| is_other(key, prop)).count()
}

/// Returns whether a property has another key.
fn is_other(key: &Name, prop: &Pair) -> bool
    ensures { result ≡ is_other key.now prop.now }
{
    !key.is(&prop.name)
}
