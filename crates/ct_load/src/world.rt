ghost use Rattle.std.specs.Prelude.{◌≡◌, IfOk, vec_len};
ghost use Rattle.ct_load.specs.World.{code_of, load_gate_count, gate_of, gates_of, load_told, world_of};

use ct_base::{Blob, List, NoMemory};
use ct_core::{Ended, ScriptGate, Told};
use ct_verdict::How;
use std::alloc::Global;

/// How many gates a load has.
///
/// Source: this project's choice.
const GATES: usize = 4;

/// Makes the gates of a load of `count` tests, all of one world.
pub(crate) fn gates_of(alloc: Global, count: u32) -> Result<Vec<ScriptGate>, NoMemory>
    ensures all { IfOk result (λ gates. vec_len gates ≡ load_gate_count) }
    ensures are { IfOk result (λ gates. gates.items ≡ gates_of count) }
{
    let mut gates = Vec::new(alloc);
    for _ in 0..GATES {
        gates.push(gate_of(alloc, count)?)?;
    }
    Ok(gates)
}

fn gate_of(alloc: Global, count: u32) -> Result<ScriptGate, NoMemory>
    ensures { IfOk result (λ gate. gate ≡ gate_of count) }
{
    let world = world_of(alloc, count)?;
    Ok(ScriptGate::new(alloc, world))
}

/// Makes the world of `count` tests, whose numbers are from 1.
fn world_of(alloc: Global, count: u32) -> Result<List<Told>, NoMemory>
    ensures { IfOk result (λ world. world ≡ world_of count) }
{
    let mut world = List::new(alloc);
    for before in 0..count {
        world.push(told_of(alloc, before + 1))?;
    }
    Ok(world)
}

/// Returns what is told of the first attempt of a test.
fn told_of(alloc: Global, number: u32) -> Told
    ensures { result ≡ load_told number }
{
    Told {
        test: number,
        attempt: 1,
        heard: Blob::new(alloc),
        ended: Ended {
            how: How::Exited(code_of(number)),
            micros: u64::from(number),
        },
    }
}

/// Returns the exit code of a test.
fn code_of(number: u32) -> i32
    ensures { result ≡ code_of number }
{
    if number % 97 == 0 { 1 } else { 0 }
}
