ghost use Rattle.std.specs.Prelude.{◌≡◌, ◌<◌, ◌-◌, ◌^◌, IfOk, IfErr, length, vec_len};
ghost use Rattle.std.specs.Fn.{FnOnceReturnsAt};
ghost use Rattle.std.specs.Process.{exit_status};
ghost use Rattle.ct_edge.specs.Machine.{gates_tell};
ghost use Rattle.ct_start.specs.Start.{status_of_fault, unused_gates};

use crate::{BeginFault, gates_of, pairs_of, words_of};
use ct_base::{Name, Pair};
use ct_edge::ProcessGate;
use std::env;
use std::process::ExitCode;

/// Makes the call of a program, with the words and the variables that the system gives the process, and
/// with gates that no test has used.
///
/// Where the system does not give them, or memory is wanting, no call is made.
pub fn start<T, C: FnOnce(&[Name], &[Pair], Vec<ProcessGate>) -> T + Drop>(
    rt: HostRuntime,
    call: C,
) -> Result<T, BeginFault>
    requires { (words : _) (vars : _) (gates : _) → length words.now < 2 ^ 32 - 1 → 0 < vec_len gates →
        gates_tell gates.items ≡ unused_gates → C.pre call words vars gates }
    ensures { IfOk result (λ done. (words : _) × (vars : _) × (gates : _) ×
        (gates_tell gates.items ≡ unused_gates) × C.post call words vars gates done) }
{
    let args: Vec<String> = env::args(&rt)?.collect(rt.alloc())?;
    let vars: Vec<(String, String)> = env::vars(&rt)?.collect(rt.alloc())?;
    let words = words_of(rt.alloc(), args.as_slice())?;
    let vars = pairs_of(rt.alloc(), vars.as_slice())?;
    let gates = gates_of(rt.alloc(), rt)?;
    Ok(call(words.as_slice(), vars.as_slice(), gates))
}

/// Makes the call of a program with the words that the system gives the process.
///
/// Where the system does not give them, or memory is wanting, no call is made.
pub fn start_by_words<T, C: FnOnce(&[Name]) -> T + Drop>(
    rt: HostRuntime,
    call: C,
) -> Result<T, BeginFault>
    requires { (words : _) → length words.now < 2 ^ 32 - 1 → C.pre call words }
    ensures { IfOk result (λ done. (words : _) × C.post call words done) }
{
    let args: Vec<String> = env::args(&rt)?.collect(rt.alloc())?;
    let words = words_of(rt.alloc(), args.as_slice())?;
    Ok(call(words.as_slice()))
}

/// Returns the exit code of a program: that of its call, or that of what kept the call from being made.
///
/// Source: this project's choice where no call was made.
pub fn exit_code<T: Drop, C: FnOnce(&T) -> u8 + Drop>(
    begun: Result<T, BeginFault>,
    status: C,
) -> ExitCode
    requires { C.IsAlwaysCallable status }
    ensures done { IfOk begun (λ done. FnOnceReturnsAt C.FnOnce status done (exit_status result)) }
    ensures fault { IfErr begun (λ fault. exit_status result ≡ status_of_fault fault) }
{
    let code = code_of(&begun, status);
    drop(begun);
    ExitCode::from(code)
}

fn code_of<T, C: FnOnce(&T) -> u8 + Drop>(begun: &Result<T, BeginFault>, status: C) -> u8
    requires { C.IsAlwaysCallable status }
    ensures done { IfOk begun.now (λ done. FnOnceReturnsAt C.FnOnce status done result) }
    ensures fault { IfErr begun.now (λ fault. result ≡ status_of_fault fault) }
{
    match begun {
        Ok(done) => status(done),
        Err(fault) => fault.status(),
    }
}
