ghost use Rattle.std.specs.Prelude.{◌≡◌, IfOk, true};
ghost use Rattle.ct_history.specs.Legal as Legal;
ghost use Rattle.ct_history.specs.Legal.{StaysWithin};

use crate::{Audit, Entry, History, Plan};
use ct_base::NoMemory;
use std::alloc::Global;

/// Returns whether a history is legal for a plan: each entry is allowed by the entries in front of
/// it, and no Stop is left due. A legal history stays within what the plan declares.
///
/// Source: this project's choice.
pub fn judge(alloc: Global, plan: &Plan, history: &History) -> Result<bool, NoMemory>
    ensures legal { IfOk result (λ legal. legal ≡ Legal.is_legal plan.now history.now.entries.items) }
    ensures within { IfOk result (λ legal. legal ≡ true →
        StaysWithin plan.now history.now.entries.items) }
{
    is_legal(alloc, plan, history.entries.as_slice())
}

fn is_legal(alloc: Global, plan: &Plan, entries: &[Entry]) -> Result<bool, NoMemory>
    ensures { IfOk result (λ legal. legal ≡ Legal.is_legal plan.now entries.now) }
{
    let mut audit = Audit::new(alloc, plan);
    for at in 0..entries.len() {
        if !audit.allows(plan, &entries[at]) {
            return Ok(false);
        }
        audit.note(plan, entries[at].copy(alloc)?)?;
    }
    Ok(!audit.due)
}
