ghost use Rattle.std.specs.Prelude.{◌≡◌, ◌++◌, [], IfOk, OnOk, All};
ghost use Rattle.serde_json.specs.View.{view, items_view, members_view};
ghost use Rattle.ct_base.specs.Resources.{AreDistinct};
ghost use Rattle.ct_spec.specs.Specification.{entries_from, resources_of_kind as kind_says, resources_of_kinds as kinds_say};
ghost use Rattle.ct_spec.specs.Read.{ReadsResources};

use crate::SpecFault;
use crate::entry::resource_in;
use crate::ids::Ids;
use ct_base::{List, Name, NoMemory, Resource, is_type_name};
use serde_json::{Map, Value};
use std::alloc::Global;

/// Reads the resources of all kinds, in order of their names.
pub(crate) fn resources_of_kinds(
    alloc: Global,
    kinds: &Map<String, Value>,
) -> Result<List<Resource>, SpecFault>
    ensures read { ReadsResources result (kinds_say (members_view kinds.now.entries)) }
    ensures distinct { IfOk result AreDistinct }
{
    let mut resources = List::new(alloc);
    for (kind, value) in kinds.iter() {
        let more = resources_of_kind(alloc, kind.as_bytes(), value)?;
        push_all(&mut resources, more)?;
    }
    Ok(resources)
}

fn push_all(resources: &mut List<Resource>, more: List<Resource>) -> Result<(), NoMemory>
    ensures { OnOk result (resources.new ≡ resources.old ++ more) }
{
    for resource in more.into_vec() {
        resources.push(resource)?;
    }
    Ok(())
}

/// Reads the resources of a kind; its name is checked first.
fn resources_of_kind(alloc: Global, kind: &[u8], value: &Value) -> Result<List<Resource>, SpecFault>
    ensures { ReadsResources result (kind_says kind.now (view value.now)) }
{
    if !is_type_name(kind) {
        return Err(SpecFault::BadKind {
            kind: Name::of(alloc, kind)?,
        });
    }
    let Some(entries) = value.as_array() else {
        return Err(SpecFault::BadKind {
            kind: Name::of(alloc, kind)?,
        });
    };
    resources_of_entries(alloc, kind, entries.as_slice())
}

/// Reads the entries of a kind in order, numbered from 0.
fn resources_of_entries(
    alloc: Global,
    kind: &[u8],
    entries: &[Value],
) -> Result<List<Resource>, SpecFault>
    ensures { ReadsResources result (entries_from kind.now 0 [] (items_view entries.now)) }
{
    let mut resources = List::new(alloc);
    let mut ids = Ids::new(alloc);
    for place in 0..entries.len() {
        let resource = resource_in(alloc, kind, place, &ids, &entries[place])?;
        ids = ids.with(alloc, resource.id.bytes())?;
        resources.push(resource)?;
    }
    Ok(resources)
}
