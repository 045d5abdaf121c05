ghost use Rattle.std.specs.Prelude.{◌≡◌, ◌<◌, ◌^◌, ◌++◌, false, IfOk, OnOk, IsUtf8, length, map};
ghost use Rattle.std.specs.Option.{option_copied};
ghost use Rattle.serde_json.specs.Data.{put as with_member};
ghost use Rattle.serde_json.specs.View.{items_of, members_view, view};
ghost use Rattle.serde_json.specs.Written.{comma_if, compact_text, items_text};
ghost use Rattle.ct_info.specs.Info.{def_at, property_value as property_says, test_value as test_says, test_values as tests_say, text_value as text_says};

use crate::text::text_of;
use ct_base::{Blob, Name, NoMemory, Pair, TestDef};
use serde_json::{Map, Value, put};
use std::alloc::Global;

/// Writes the tests with these numbers behind a text, as the items of an array with its closing bracket.
///
/// A number without a test is left out. The value of each test is dropped as soon as it is written,
/// so that only one is kept at a time.
pub(crate) fn put_tests(
    alloc: Global,
    text: &mut Blob,
    defs: &[TestDef],
    members: &[u32],
    config: &str,
) -> Result<(), NoMemory>
    ensures is { OnOk result (text.new ≡ text.old ++ items_text false (items_of (tests_say config.now defs.now members.now))) }
    ensures utf8 { OnOk result (IsUtf8 text.old → IsUtf8 text.new) }
    ensures few { length defs.now < 2 ^ 64 }
{
    let mut later = false;
    for number in members {
        if let Some(def) = test_at(defs, *number) {
            put_test(alloc, text, later, *number, def, config)?;
            later = true;
        }
    }
    text.append(b"]")?;
    Ok(())
}

/// Writes a test with this number behind a text, with a comma in front if another test stands
/// before.
fn put_test(
    alloc: Global,
    text: &mut Blob,
    later: bool,
    number: u32,
    def: &TestDef,
    config: &str,
) -> Result<(), NoMemory>
    ensures is { OnOk result (text.new ≡ text.old ++ (comma_if later ++ compact_text (test_says config.now number def.now))) }
    ensures utf8 { OnOk result (IsUtf8 text.old → IsUtf8 text.new) }
{
    let value = test_value(alloc, number, def, config)?;
    let written = value.to_vec(alloc)?;
    text.append(comma(later))?;
    text.append(written.as_slice())?;
    Ok(())
}

fn comma(later: bool) -> &'static [u8]
    ensures { result.now ≡ comma_if later }
{
    if later { b"," } else { b"" }
}

/// Looks up the test with this number.
fn test_at(defs: &[TestDef], number: u32) -> Option<&TestDef>
    ensures { option_copied result ≡ def_at defs.now number }
{
    let place = number.checked_sub(1)?;
    defs.get(place as usize)
}

/// Makes the value of a test with this number.
fn test_value(alloc: Global, number: u32, def: &TestDef, config: &str) -> Result<Value, NoMemory>
    ensures { IfOk result (λ value. view value ≡ test_says config.now number def.now) }
{
    let command = text_values(alloc, def.command.as_slice())?;
    let name = text_of(alloc, &def.name)?;
    let properties = property_values(alloc, def.props.as_slice())?;
    let config = Value::try_from_str(alloc, config)?;
    // The members are put one by one: for five members in one `json!`, the check finds no proof.
    let mut told = Map::new(alloc);
    put(&mut told, alloc, "command", Value::Array(command))?;
    put(&mut told, alloc, "config", config)?;
    put(&mut told, alloc, "name", Value::String(name))?;
    put(&mut told, alloc, "number", Value::from(number))?;
    put(&mut told, alloc, "properties", Value::Array(properties))?;
    Ok(Value::Object(told))
}

fn text_values(alloc: Global, texts: &[Name]) -> Result<Vec<Value>, NoMemory>
    ensures { IfOk result (λ values. map view values.items ≡ map text_says texts.now) }
{
    let mut values = Vec::new(alloc);
    for text in texts {
        values.push(Value::String(text_of(alloc, text)?))?;
    }
    Ok(values)
}

fn property_values(alloc: Global, props: &[Pair]) -> Result<Vec<Value>, NoMemory>
    ensures { IfOk result (λ values. map view values.items ≡ map property_says props.now) }
{
    let mut values = Vec::new(alloc);
    for pair in props {
        values.push(property_value(alloc, pair)?)?;
    }
    Ok(values)
}

fn property_value(alloc: Global, pair: &Pair) -> Result<Value, NoMemory>
    ensures { IfOk result (λ value. view value ≡ property_says pair.now) }
{
    let mut told = Map::new(alloc);
    put_text(alloc, &mut told, "name", &pair.name)?;
    put_text(alloc, &mut told, "value", &pair.value)?;
    Ok(Value::Object(told))
}

/// Puts the text of a name into an object, as its member with this key.
fn put_text(
    alloc: Global,
    told: &mut Map<String, Value>,
    key: &str,
    name: &Name,
) -> Result<(), NoMemory>
    ensures { OnOk result (members_view told.new.entries ≡ with_member key.now (text_says name.now) (members_view told.old.entries)) }
{
    put(told, alloc, key, Value::String(text_of(alloc, name)?))?;
    Ok(())
}
