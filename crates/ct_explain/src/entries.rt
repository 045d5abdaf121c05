ghost use Rattle.std.specs.Prelude.{◌≡◌, IfOk};

use ct_alloc::copy_placement;
use ct_base::NoMemory;
use ct_history::Entry;
use std::alloc::Global;

/// Copies an entry.
pub(crate) fn copy_entry(alloc: Global, entry: &Entry) -> Result<Entry, NoMemory>
    ensures { IfOk result (λ copy. copy ≡ entry.now) }
{
    match entry {
        Entry::Start {
            test,
            attempt,
            worker,
            placement,
        } => Ok(Entry::Start {
            test: *test,
            attempt: *attempt,
            worker: *worker,
            placement: copy_placement(alloc, placement.as_ref())?,
        }),
        Entry::End {
            test,
            attempt,
            worker,
            seen,
        } => Ok(Entry::End {
            test: *test,
            attempt: *attempt,
            worker: *worker,
            seen: *seen,
        }),
        Entry::Settle { test, cause } => Ok(Entry::Settle {
            test: *test,
            cause: *cause,
        }),
        Entry::Stop => Ok(Entry::Stop),
    }
}
