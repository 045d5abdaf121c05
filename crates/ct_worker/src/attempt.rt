ghost use Rattle.std.specs.Prelude.{◌≡◌, ◌≤◌, true, IfOk, None, Some, length, unwrap_or};
ghost use Rattle.std.specs.Option.{option_copied};
ghost use Rattle.ct_env.specs.Environment.{IsEnvironment};
ghost use Rattle.ct_core.specs.Gate.{is_no_memory};
ghost use Rattle.ct_core.specs.Ticket.{run_of, test_of};
ghost use Rattle.ct_turn.specs.Seen.{held_start};
ghost use Rattle.ct_worker.specs.Attempt.{RunsAttempt};
ghost use Rattle.ct_worker.specs.Gates.{IsRequestOf, limit_of, placement_shown, terms_of};

use crate::Jobs;
use crate::listener::Listener;
use ct_alloc::Placement;
use ct_base::{List, NoMemory, Pair, TestDef, copy_names};
use ct_core::{Gate, Request, Ticket};
use ct_env::environment;
use ct_props::Props;
use ct_turn::Pass;
use ct_verdict::{How, Seen};
use std::alloc::Global;

/// Asks the gate to run the attempt of a ticket, and returns what is seen of it.
///
/// All memory that the attempt wants is taken first. If it is wanting, the
/// gate is not asked. `lends` is whether resources are lent. Meanwhile the gate
/// is lent the worker's pass, which holds the attempt's start.
pub(crate) fn ask<G: Gate>(
    alloc: Global,
    pass: &Pass,
    ticket: &Ticket,
    jobs: &Jobs<'_>,
    lends: bool,
    gate: &mut G,
) -> Seen
    requires away { pass.now.taken ≡ None }
    requires holds { held_start pass.now.known ≡ Some (run_of ticket.now) }
    requires low { 1 ≤ test_of ticket.now }
    requires def { test_of ticket.now ≤ length jobs.now.defs.now }
    requires props { test_of ticket.now ≤ length jobs.now.props.now }
    ensures { RunsAttempt (terms_of jobs.now lends) pass.now (run_of ticket.now) result (G.tells gate.old) (G.tells gate.new) }
{
    let def = jobs.def(ticket.test());
    let props = jobs.props(ticket.test());
    let Ok(request) = request(alloc, ticket, jobs, lends, def, props) else {
        return unasked();
    };
    let Ok(mut ear) = Listener::new(alloc, props) else {
        return unasked();
    };
    let ended = gate.run(alloc, pass, ticket, &request, &mut ear);
    ear.seen(ended)
}

/// Makes the request for the attempt of a ticket.
///
/// Source: CMake manual, cmake-properties(7), ENVIRONMENT, REQUIRED_FILES, TIMEOUT,
/// WORKING_DIRECTORY; ctest(1), --timeout, Resource Allocation.
fn request(
    alloc: Global,
    ticket: &Ticket,
    jobs: &Jobs<'_>,
    lends: bool,
    def: &TestDef,
    props: &Props,
) -> Result<Request, NoMemory>
    ensures { IfOk result (λ request. IsRequestOf (terms_of jobs.now lends) def.now props.now (run_of ticket.now) request) }
{
    Ok(Request {
        test: ticket.test(),
        attempt: ticket.attempt(),
        name: def.name.copy(alloc)?,
        command: copy_names(alloc, def.command.as_slice())?,
        dir: props.working_dir.copy(alloc)?,
        env: env_of(alloc, jobs.own, lends, props, ticket.placement())?,
        limit: limit(props.timeout, jobs.timeout),
        required: copy_names(alloc, props.required_files.as_slice())?,
    })
}

/// Makes the environment of an attempt with this placement. If resources are lent,
/// a test with groups but without a placement is shown a placement without picks.
///
/// Source: CMake manual, ctest(1), Resource Allocation, Environment Variables.
fn env_of(
    alloc: Global,
    env: &[Pair],
    lends: bool,
    props: &Props,
    placement: Option<&Placement>,
) -> Result<List<Pair>, NoMemory>
    ensures { IfOk result (λ pairs. IsEnvironment env.now props.now (placement_shown lends props.now (option_copied placement.entry)) pairs) }
{
    match placement {
        Some(_) => environment(alloc, env, props, placement),
        None if lends && props.groups.count() > 0 => {
            let picks = List::new(alloc);
            environment(alloc, env, props, Some(&Placement { picks }))
        }
        None => environment(alloc, env, props, None),
    }
}

/// Returns how long an attempt may run, in microseconds: by TIMEOUT,
/// or else by the run. `None` is no limit, and so is a limit of 0.
fn limit(timeout: Option<u64>, run_limit: u64) -> Option<u64>
    ensures { result ≡ limit_of (unwrap_or timeout run_limit) }
{
    let micros = timeout.unwrap_or(run_limit);
    if micros == 0 { None } else { Some(micros) }
}

/// Returns what is seen of an attempt for which memory was wanting, so that its gate was not asked.
fn unasked() -> Seen
    ensures { is_no_memory result.how ≡ true }
{
    Seen {
        how: How::NoMemory,
        fail_hit: false,
        pass_hit: false,
        skip_hit: false,
        micros: 0,
    }
}
