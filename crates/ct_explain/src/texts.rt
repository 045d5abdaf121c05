ghost use Rattle.std.specs.Prelude.{◌≡◌, ◌<◌, ◌+◌, ◌++◌, codes, decimal, IfOk, OnOk};
ghost use Rattle.std.specs.Option.{option_copied};
ghost use Rattle.ct_explain.specs.Texts.{block_text, capacity_text, level_text, name_at, numbered, resource_at, resource_text, micros_text, micros_digits, slots_text, test_text, wait_text, why_text};

use crate::wait::Wait;
use crate::why::Why;
use ct_base::{Blob, Name, NoMemory, Resource};
use ct_history::{Plan, planned_test};
use ct_times::{Bound, Capacity};
use std::alloc::Global;

/// Puts microseconds behind the text: whole seconds, a point, and six digits.
///
/// Source: this project's choice.
pub(crate) fn append_seconds(alloc: Global, text: &mut Blob, micros: u128) -> Result<(), NoMemory>
    ensures { OnOk result (text.new ≡ text.old ++ micros_text micros) }
{
    text.append_number(alloc, micros / 1_000_000)?;
    text.append(b".")?;
    text.append(&micros_digits((micros % 1_000_000) as u32))?;
    Ok(())
}

/// Writes a number below a million in six digits.
fn micros_digits(number: u32) -> [u8; 6]
    requires { number < 1000000 }
    ensures { result ≡ micros_digits number }
{
    [
        digit(number / 100_000),
        digit(number / 10_000 % 10),
        digit(number / 1_000 % 10),
        digit(number / 100 % 10),
        digit(number / 10 % 10),
        digit(number % 10),
    ]
}

fn digit(number: u32) -> u8
    requires { number < 10 }
    ensures { result ≡ 48 + number }
{
    b'0' + number as u8
}

/// Puts what a start waited for behind the text.
///
/// Source: this project's choice.
pub(crate) fn append_wait(
    alloc: Global,
    text: &mut Blob,
    plan: &Plan,
    wait: &Wait,
) -> Result<(), NoMemory>
    ensures { OnOk result (text.new ≡ text.old ++ wait_text plan.now wait.now) }
{
    match wait {
        Wait::Attempt(attempt) => append_numbered(alloc, text, b"its attempt ", *attempt)?,
        Wait::Predecessor(test) => append_numbered(alloc, text, b"test #", *test)?,
        Wait::Serial(test) => append_numbered(alloc, text, b"serial test #", *test)?,
        Wait::Processors { used } => append_processors(alloc, text, *used, plan.parts().level)?,
        Wait::Lock { name, test } => append_lock(alloc, text, name, *test)?,
        Wait::Resource { place } => append_resource(text, plan, *place)?,
        Wait::Worker(worker) => append_numbered(alloc, text, b"worker ", *worker)?,
        Wait::Nothing => text.append(b"nothing")?,
    }
    Ok(())
}

/// Puts these bytes and then a number behind the text.
fn append_numbered(
    alloc: Global,
    text: &mut Blob,
    front: &[u8],
    number: u32,
) -> Result<(), NoMemory>
    ensures { OnOk result (text.new ≡ text.old ++ numbered front.now number) }
{
    text.append(front)?;
    text.append_number(alloc, u128::from(number))?;
    Ok(())
}

fn append_processors(alloc: Global, text: &mut Blob, used: u64, level: u32) -> Result<(), NoMemory>
    ensures { OnOk result
        (text.new ≡ text.old ++ (codes "processors: " ++ decimal used ++ level_text level)) }
{
    text.append(b"processors: ")?;
    text.append_number(alloc, u128::from(used))?;
    append_level(alloc, text, level)?;
    Ok(())
}

fn append_level(alloc: Global, text: &mut Blob, level: u32) -> Result<(), NoMemory>
    ensures { OnOk result (text.new ≡ text.old ++ level_text level) }
{
    append_numbered(alloc, text, b" of ", level)?;
    text.append(b" in use")?;
    Ok(())
}

fn append_lock(alloc: Global, text: &mut Blob, name: &Name, test: u32) -> Result<(), NoMemory>
    ensures { OnOk result
        (text.new ≡ text.old ++ (codes "lock " ++ name.now ++ codes " of test #" ++ decimal test)) }
{
    text.append(b"lock ")?;
    text.append(name.bytes())?;
    text.append(b" of test #")?;
    text.append_number(alloc, u128::from(test))?;
    Ok(())
}

fn append_resource(text: &mut Blob, plan: &Plan, place: usize) -> Result<(), NoMemory>
    ensures { OnOk result (text.new ≡ text.old ++ resource_text (resource_at plan.now.resources place)) }
{
    text.append(b"resource ")?;
    if let Some(resource) = resource_at(plan, place) {
        text.append(resource.kind.bytes())?;
        text.append(b" ")?;
        text.append(resource.id.bytes())?;
    }
    Ok(())
}

/// Looks up a resource of a plan by its place, counted from 0.
fn resource_at(plan: &Plan, place: usize) -> Option<&Resource>
    ensures { option_copied result ≡ resource_at plan.now.resources place }
{
    match &plan.parts().resources {
        Some(resources) => resources.get(place),
        None => None,
    }
}

/// Puts the number and the name of a test behind the text.
pub(crate) fn append_test(
    alloc: Global,
    text: &mut Blob,
    plan: &Plan,
    number: u32,
) -> Result<(), NoMemory>
    ensures { OnOk result (text.new ≡ text.old ++ test_text number (name_at plan.now number)) }
{
    append_numbered(alloc, text, b"Test #", number)?;
    text.append(b": ")?;
    append_name(text, plan, number)?;
    Ok(())
}

fn append_name(text: &mut Blob, plan: &Plan, number: u32) -> Result<(), NoMemory>
    ensures { OnOk result (text.new ≡ text.old ++ name_at plan.now number) }
{
    if let Some(test) = planned_test(plan, number) {
        text.append(test.name.bytes())?;
    }
    Ok(())
}

/// Puts the number and the name of a test behind the text, where its name is known.
pub(crate) fn append_numbered_name(
    alloc: Global,
    text: &mut Blob,
    number: u32,
    name: &Name,
) -> Result<(), NoMemory>
    ensures { OnOk result (text.new ≡ text.old ++ test_text number name.now) }
{
    append_numbered(alloc, text, b"Test #", number)?;
    text.append(b": ")?;
    text.append(name.bytes())?;
    Ok(())
}

/// Puts why a line of a journal is refused behind the text.
///
/// Source: this project's choice.
pub(crate) fn append_why(
    alloc: Global,
    text: &mut Blob,
    plan: &Plan,
    why: &Why,
) -> Result<(), NoMemory>
    ensures { OnOk result (text.new ≡ text.old ++ why_text plan.now why.now) }
{
    match why {
        Why::NoLine => text.append(b"not a line of a journal")?,
        Why::StopIsDue => text.append(b"a stop is due")?,
        Why::NoStopIsDue => text.append(b"no stop is due")?,
        Why::NoTest(test) => append_numbered(alloc, text, b"no test ", *test)?,
        Why::IsFinal(test) => append_of_test(alloc, text, *test, b" is final")?,
        Why::Waited { test, wait } => append_waited(alloc, text, plan, *test, wait)?,
        Why::MayNotStart(test) => append_of_test(alloc, text, *test, b" may not start")?,
        Why::NoSuchStart => text.append(b"no such start is open")?,
        Why::MayNotBeSettled(test) => append_of_test(
            alloc,
            text,
            *test,
            b" may not be settled so",
        )?,
        Why::IsNotComplete => text.append(b"the run is not complete")?,
        Why::NotThisManyEntries => text.append(b"not this many entries")?,
    }
    Ok(())
}

/// Puts the number of a test and then these bytes behind the text.
fn append_of_test(alloc: Global, text: &mut Blob, test: u32, what: &[u8]) -> Result<(), NoMemory>
    ensures { OnOk result (text.new ≡ text.old ++ (codes "test " ++ decimal test ++ what.now)) }
{
    text.append(b"test ")?;
    text.append_number(alloc, u128::from(test))?;
    text.append(what)?;
    Ok(())
}

fn append_waited(
    alloc: Global,
    text: &mut Blob,
    plan: &Plan,
    test: u32,
    wait: &Wait,
) -> Result<(), NoMemory>
    ensures { OnOk result (text.new ≡ text.old
        ++ (codes "test " ++ decimal test ++ codes " waited for " ++ wait_text plan.now wait.now)) }
{
    append_of_test(alloc, text, test, b" waited for ")?;
    append_wait(alloc, text, plan, wait)?;
    Ok(())
}

/// Puts the capacity of a bound behind the text.
///
/// Source: this project's choice.
pub(crate) fn append_capacity(alloc: Global, text: &mut Blob, bound: &Bound) -> Result<(), NoMemory>
    ensures { OnOk result (text.new ≡ text.old ++ capacity_text bound.now.size bound.now.capacity) }
{
    match &bound.capacity {
        Capacity::Path(_) => text.append(b"tests one after the other")?,
        Capacity::Processors => append_size(alloc, text, bound.size, b" processors")?,
        Capacity::Wide => text.append(b"tests of more than half of the processors")?,
        Capacity::Lock { name, .. } => append_both(text, b"lock ", name)?,
        Capacity::Slots { kind, block } => append_slots(alloc, text, bound.size, kind, *block)?,
    }
    Ok(())
}

/// Puts a size and then these bytes behind the text.
fn append_size(alloc: Global, text: &mut Blob, size: u64, what: &[u8]) -> Result<(), NoMemory>
    ensures { OnOk result (text.new ≡ text.old ++ (decimal size ++ what.now)) }
{
    text.append_number(alloc, u128::from(size))?;
    text.append(what)?;
    Ok(())
}

/// Puts these bytes and then a name behind the text.
fn append_both(text: &mut Blob, front: &[u8], name: &Name) -> Result<(), NoMemory>
    ensures { OnOk result (text.new ≡ text.old ++ (front.now ++ name.now)) }
{
    text.append(front)?;
    text.append(name.bytes())?;
    Ok(())
}

fn append_slots(
    alloc: Global,
    text: &mut Blob,
    size: u64,
    kind: &Name,
    block: u32,
) -> Result<(), NoMemory>
    ensures { OnOk result (text.new ≡ text.old ++ slots_text size kind.now block) }
{
    text.append_number(alloc, u128::from(size))?;
    append_block(alloc, text, block)?;
    text.append(b" slots of ")?;
    text.append(kind.bytes())?;
    Ok(())
}

fn append_block(alloc: Global, text: &mut Blob, block: u32) -> Result<(), NoMemory>
    ensures { OnOk result (text.new ≡ text.old ++ block_text block) }
{
    if block > 1 {
        append_numbered(alloc, text, b" times ", block)?;
    }
    Ok(())
}
