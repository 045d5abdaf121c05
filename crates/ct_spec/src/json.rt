ghost use Rattle.std.specs.Prelude.{◌≡◌, IfOk, option_map};
ghost use Rattle.serde_json.specs.View.{view, items_view, members_view};
ghost use Rattle.ct_spec.specs.Json.{json_in as json_of, only_item as one_item, whole as whole_of, whole_at as whole_in};

use ct_base::NoMemory;
use serde_json::Value;
use std::alloc::Global;

/// Reads a text as JSON; `None` if it is not JSON.
pub(crate) fn json_in(alloc: Global, text: &[u8]) -> Result<Option<Value>, NoMemory>
    ensures { IfOk result (λ value. option_map view value ≡ json_of text.now) }
{
    match Value::from_slice(alloc, text) {
        Ok(value) => Ok(Some(value)),
        Err(fault) => {
            if fault.is_memory() {
                return Err(NoMemory);
            }
            Ok(None)
        }
    }
}

/// Returns the whole number in a member.
pub(crate) fn whole_at(value: &Value, name: &str) -> Option<u64>
    ensures { result ≡ whole_in name.now (view value.now) }
{
    value.get(name).and_then(Value::as_u64)
}

/// Returns the item of an array that has exactly one.
#[tactic(auto, using(crate::proofs::ReadLemmas::no_item, crate::proofs::ReadLemmas::more_items))]
pub(crate) fn only_item(items: &[Value]) -> Option<&Value>
    ensures { option_map (λ v. view v.now) result ≡ one_item (items_view items.now) }
{
    match items {
        [] => None,
        [only] => Some(only),
        [_, _, ..] => None,
    }
}
