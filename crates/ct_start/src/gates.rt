ghost use Rattle.std.specs.Prelude.{◌≡◌, IfOk, length};
ghost use Rattle.ct_edge.specs.Machine.{gates_tell};
ghost use Rattle.ct_start.specs.Start.{unused_gates};

use ct_base::NoMemory;
use ct_edge::ProcessGate;
use std::alloc::Global;

/// How many programs of tests can run at once.
///
/// Source: this project's choice.
const GATES: usize = 256;

/// Makes the gates through which tests may run, none of which has failed.
pub fn gates_of(alloc: Global, rt: HostRuntime) -> Result<Vec<ProcessGate>, NoMemory>
    ensures are { IfOk result (λ gates. gates_tell gates.items ≡ unused_gates) }
    ensures count { length unused_gates ≡ 256 }
{
    let mut gates = Vec::new(alloc);
    for _ in 0..GATES {
        gates.push(ProcessGate::new(rt))?;
    }
    Ok(gates)
}
