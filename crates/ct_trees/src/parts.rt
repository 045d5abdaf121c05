ghost use Rattle.std.specs.Prelude.{◌≡◌, ◌-◌, ◌++◌, [], IfOk, OnOk};
ghost use Rattle.std.specs.List.{cons_option};
ghost use Rattle.ct_history.specs.Parts.{cause_back as cause_lowered, entry_of_part, is_in_tree as stands_in_tree};

use ct_alloc::copy_placement;
use ct_base::NoMemory;
use ct_history::Entry;
use ct_verdict::Cause;
use std::alloc::Global;

/// Puts an entry behind the others, if there is one.
pub(crate) fn push_own(entries: &mut Vec<Entry>, own: Option<Entry>) -> Result<(), NoMemory>
    ensures { OnOk result (entries.new.items ≡ entries.old.items ++ cons_option own []) }
{
    if let Some(own) = own {
        entries.push(own)?;
    }
    Ok(())
}

/// Copies an entry with the tree's own numbers, if it is of one of its tests.
pub(crate) fn own_entry(
    alloc: Global,
    entry: &Entry,
    offset: usize,
    count: usize,
) -> Result<Option<Entry>, NoMemory>
    ensures { IfOk result (λ own. own ≡ entry_of_part offset count entry.now) }
{
    match entry {
        Entry::Start {
            test,
            attempt,
            worker,
            placement,
        } if is_in_tree(*test, offset, count) => Ok(Some(Entry::Start {
            test: lowered(*test, offset),
            attempt: *attempt,
            worker: *worker,
            placement: copy_placement(alloc, placement.as_ref())?,
        })),
        Entry::End {
            test,
            attempt,
            worker,
            seen,
        } if is_in_tree(*test, offset, count) => Ok(Some(Entry::End {
            test: lowered(*test, offset),
            attempt: *attempt,
            worker: *worker,
            seen: *seen,
        })),
        Entry::Settle { test, cause } if is_in_tree(*test, offset, count) => {
            Ok(Some(Entry::Settle {
                test: lowered(*test, offset),
                cause: cause_back(offset, *cause),
            }))
        }
        _ => Ok(None),
    }
}

/// Returns whether a test of a whole plan is one of the `count` tests behind `offset` others.
fn is_in_tree(number: u32, offset: usize, count: usize) -> bool
    ensures { result ≡ stands_in_tree offset count number }
{
    let number = number as usize;
    offset < number && number - offset <= count
}

/// Returns the tree's own number of a test, which is 0 for a test in front of its first one.
fn lowered(number: u32, offset: usize) -> u32
    ensures { result ≡ number - offset }
{
    (number as usize).saturating_sub(offset) as u32
}

/// Returns a cause with the tree's own number of a setup.
fn cause_back(offset: usize, cause: Cause) -> Cause
    ensures { result ≡ cause_lowered offset cause }
{
    match cause {
        Cause::Fixture(setup) => Cause::Fixture(lowered(setup, offset)),
        Cause::Unstarted
        | Cause::Lacks(_)
        | Cause::NotAvailable
        | Cause::BadOperation(_)
        | Cause::Insufficient
        | Cause::Stopped
        | Cause::Memory => cause,
    }
}
