ghost use Rattle.std.specs.Prelude.{◌≡◌, IfOk, codes, option_map};
ghost use Rattle.serde_json.specs.Find.{get};
ghost use Rattle.serde_json.specs.View.{view, members_view};
ghost use Rattle.ct_base.specs.Resources.{AreDistinct};
ghost use Rattle.ct_spec.specs.Specification.{is_known_version, is_version as is_read, limited as limited_to, local_kinds as kinds_in, resources_of as resources_said, resources_of_local};
ghost use Rattle.ct_spec.specs.Read.{ReadsResources};

use crate::SpecFault;
use crate::json::{only_item, whole_at};
use crate::kinds::resources_of_kinds;
use ct_base::{List, Resource};
use serde_json::{Map, Value};
use std::alloc::Global;

/// How many resources a machine may declare.
///
/// Source: this project's choice.
const MOST_RESOURCES: usize = 4_096;

/// Reads the resources that a value declares.
pub(crate) fn resources_of(alloc: Global, value: &Value) -> Result<List<Resource>, SpecFault>
    ensures read { ReadsResources result (resources_said (view value.now)) }
    ensures distinct { IfOk result AreDistinct }
{
    if !has_known_version(value) {
        return Err(SpecFault::BadVersion);
    }
    let Some(kinds) = local_kinds(value) else {
        return Err(SpecFault::BadLocal);
    };
    limited(resources_of_kinds(alloc, kinds)?)
}

fn has_known_version(value: &Value) -> bool
    ensures { result ≡ is_known_version (get (codes "version") (view value.now)) }
{
    match value.get("version") {
        Some(version) => is_version(whole_at(version, "major"), whole_at(version, "minor")),
        None => false,
    }
}

fn is_version(major: Option<u64>, minor: Option<u64>) -> bool
    ensures { result ≡ is_read major minor }
{
    match (major, minor) {
        (Some(major), Some(minor)) => major == 1 && minor == 0,
        _ => false,
    }
}

/// Lends the object that describes this machine.
fn local_kinds(value: &Value) -> Option<&Map<String, Value>>
    ensures { option_map (λ m. members_view m.now.entries) result ≡ kinds_in (view value.now) }
{
    let machines = value.get("local")?.as_array()?;
    only_item(machines.as_slice())?.as_object()
}

fn limited(resources: List<Resource>) -> Result<List<Resource>, SpecFault>
    requires { AreDistinct resources }
    ensures read { ReadsResources result (limited_to resources) }
    ensures distinct { IfOk result AreDistinct }
{
    if resources.len() > MOST_RESOURCES {
        return Err(SpecFault::TooMany);
    }
    Ok(resources)
}
