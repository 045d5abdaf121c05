ghost use Rattle.std.specs.Prelude.{◌≡◌, IfOk};
ghost use Rattle.ct_select.specs.Chosen.{by_number as numbered_by, is_numbered as is_numbered_by, is_on_stride as is_on_stride_of};
ghost use Rattle.ct_select.specs.Others.{AreOthers, HasOthers};

use ct_base::NoMemory;
use ct_props::{Choice, Numbers};
use std::alloc::Global;
use std::collections::BTreeSet;

/// Collects the numbers that -I admits besides its stride.
pub(crate) fn others_of(alloc: Global, choice: &Choice) -> Result<BTreeSet<u32>, NoMemory>
    ensures { IfOk result (λ others. HasOthers choice.now others) }
{
    match &choice.numbers {
        Some(numbers) => set_of(alloc, numbers.more.as_slice()),
        None => Ok(BTreeSet::new(alloc)),
    }
}

fn set_of(alloc: Global, numbers: &[u32]) -> Result<BTreeSet<u32>, NoMemory>
    ensures { IfOk result (λ others. AreOthers numbers.now others) }
{
    let mut others = BTreeSet::new(alloc);
    for number in numbers {
        others.insert(*number)?;
    }
    Ok(others)
}

/// Returns whether -I admits a number among `count` tests, where -I was given.
pub(crate) fn by_number(
    choice: &Choice,
    others: &BTreeSet<u32>,
    count: u32,
    number: u32,
) -> Option<bool>
    requires { HasOthers choice.now others.now }
    ensures { result ≡ numbered_by choice.now count number }
{
    match &choice.numbers {
        Some(numbers) => Some(is_numbered(numbers, others, count, number)),
        None => None,
    }
}

fn is_numbered(numbers: &Numbers, others: &BTreeSet<u32>, count: u32, number: u32) -> bool
    requires { AreOthers numbers.now.more others.now }
    ensures { result ≡ is_numbered_by count numbers.now number }
{
    let end = numbers.end.unwrap_or(count);
    let strides = is_on_stride(numbers.start, numbers.stride, number) && number <= end;
    strides || others.contains(&number)
}

fn is_on_stride(start: u32, stride: u32, number: u32) -> bool
    ensures { result ≡ is_on_stride_of start stride number }
{
    if number < start {
        return false;
    }
    let way = number - start;
    if stride == 0 {
        return way == 0;
    }
    way % stride == 0
}
