ghost use Rattle.std.specs.Prelude.{◌≡◌, [], Err, IfOk, Some, if◌then◌else◌, true};
ghost use Rattle.ct_testfile.specs.Asks.{Blames, CallAsks, ConditionAsks, IsEvaluated};
ghost use Rattle.ct_testfile.specs.TreeCalls.{MakesCalls, command_calls, condition_calls, is_evaluated, is_untaken};
ghost use Rattle.ct_testfile.specs.Says.{AreBounded, Follows, IsAnswerOf, OverCall, Unfailed};
ghost use Rattle.ct_testfile.specs.Ifs.{asked, begun_if, behind_else, behind_elseif, behind_if, begun_else, continued, done, in_branch, is_live, left, stepped};
ghost use Rattle.ct_testfile.specs.declared.branch.Branch.TheVariants as branches;
ghost use Rattle.ct_testfile.specs.declared.command.Flow.TheVariants as flow;
ghost use Rattle.ct_testfile.specs.declared.fault.ReadFault.TheVariants.{At};
ghost use Rattle.ct_testfile.specs.declared.fault.ReadKind.TheVariants.{UnpairedIf};

use crate::branch::{Branch, OpenIf};
use crate::command::{Flow, command_of, flow_of};
use crate::condition::holds;
use crate::fault::{ReadFault, ReadKind, Stop};
use crate::ifs::Ifs;
use crate::limits::Limits;
use crate::open_file::OpenFile;
use crate::opening::Opens;
use crate::perform::carry_out;
use crate::state::State;
use ct_base::{Files, NoMemory};
use ct_lex::Call;
use std::alloc::Global;

/// The open ifs and the state behind a command, and what the command opens.
#[derive(Drop)]
pub(crate) struct Step {
    pub(crate) ifs: Ifs,
    pub(crate) state: State,
    pub(crate) opens: Opens,
}

/// Carries out a command of a file, except for opening files.
pub(crate) fn advance<F: Files>(
    files: &mut F,
    here: &OpenFile<'_>,
    ifs: Ifs,
    state: State,
    call: &Call,
) -> Result<Step, ReadFault>
    requires { AreBounded here.now.limits.now }
    ensures says { OverCall (F.tells files.old) (F.tells files.new) here.now call.now
        (λ limits held dir. stepped limits held dir ifs state call.now) result }
    ensures asks { Blames (CallAsks here.now.limits.now here.now.file.now.dir ifs state call.now) result }
    ensures calls { MakesCalls (command_calls here.now.limits.now here.now.file.now.dir ifs state call.now)
        (F.calls files.old) (F.calls files.new) result }
{
    let Some(flow) = flow_of(call.name.bytes()) else {
        let step = do_other(here, ifs, state, call);
        return here.at_line(call.line, step);
    };
    match flow {
        Flow::If => do_if(files, here, ifs, state, call),
        Flow::ElseIf => do_elseif(files, here, ifs, state, call),
        Flow::Else => here.at_line(call.line, do_else(here, ifs, state)),
        Flow::EndIf => here.at_line(call.line, do_endif(here, ifs, state)),
    }
}

/// Carries out a command other than those of `if`, or passes it over.
fn do_other(here: &OpenFile<'_>, ifs: Ifs, state: State, call: &Call) -> Result<Step, Stop>
    requires { AreBounded here.now.limits.now }
    ensures { Follows result
        (done here.now.limits.now here.now.file.now.dir call.now ifs state (is_live ifs)) }
{
    let alloc = here.alloc;
    if !ifs.is_live() {
        return Ok(Step {
            ifs,
            state,
            opens: Opens::nothing(alloc),
        });
    }
    let command = command_of(call.name.bytes());
    let dir = &here.file.dir;
    let (state, opens) = carry_out(alloc, here.limits, dir, command, &call.args, state)?;
    Ok(Step { ifs, state, opens })
}

/// Opens an `if`.
///
/// Source: CMake manual, if.
fn do_if<F: Files>(
    files: &mut F,
    here: &OpenFile<'_>,
    ifs: Ifs,
    state: State,
    call: &Call,
) -> Result<Step, ReadFault>
    ensures says { OverCall (F.tells files.old) (F.tells files.new) here.now call.now
        (λ limits held dir. begun_if limits held dir call.now ifs state) result }
    ensures asks { Blames (λ path. IsEvaluated (Some flow.If) ifs
        × ConditionAsks here.now.limits.now here.now.file.now.dir call.now state path) result }
    ensures calls { MakesCalls (if is_evaluated (Some flow.If) ifs
        then condition_calls here.now.limits.now here.now.file.now.dir call.now state else [])
        (F.calls files.old) (F.calls files.new) result }
{
    let live = ifs.is_live();
    let (branch, state) = behind_if(files, here, live, state, call)?;
    Ok(in_branch(here.alloc, call.line, ifs, branch, state)?)
}

/// Returns the branch behind an `if`.
fn behind_if<F: Files>(
    files: &mut F,
    here: &OpenFile<'_>,
    live: bool,
    state: State,
    call: &Call,
) -> Result<(Branch, State), ReadFault>
    ensures says { OverCall (F.tells files.old) (F.tells files.new) here.now call.now
        (λ limits held dir. behind_if limits held dir call.now state live) result }
    ensures asks { Blames (λ path. (live ≡ true)
        × ConditionAsks here.now.limits.now here.now.file.now.dir call.now state path) result }
    ensures calls { MakesCalls (if live
        then condition_calls here.now.limits.now here.now.file.now.dir call.now state else [])
        (F.calls files.old) (F.calls files.new) result }
{
    if live {
        asked(files, here, state, call)
    } else {
        Ok((Branch::Idle, state))
    }
}

/// Begins a later branch of the innermost `if`. Its condition is evaluated if no branch was taken yet.
///
/// Source: CMake manual, elseif.
fn do_elseif<F: Files>(
    files: &mut F,
    here: &OpenFile<'_>,
    ifs: Ifs,
    state: State,
    call: &Call,
) -> Result<Step, ReadFault>
    ensures says { OverCall (F.tells files.old) (F.tells files.new) here.now call.now
        (λ limits held dir. continued limits held dir call.now ifs state) result }
    ensures asks { Blames (λ path. IsEvaluated (Some flow.ElseIf) ifs
        × ConditionAsks here.now.limits.now here.now.file.now.dir call.now state path) result }
    ensures calls { MakesCalls (if is_evaluated (Some flow.ElseIf) ifs
        then condition_calls here.now.limits.now here.now.file.now.dir call.now state else [])
        (F.calls files.old) (F.calls files.new) result }
{
    let Some((inner, outer)) = ifs.take_inner() else {
        return unpaired(here, call.line);
    };
    let (branch, state) = behind_elseif(files, here, inner.branch, state, call)?;
    Ok(in_branch(here.alloc, inner.line, outer, branch, state)?)
}

/// Returns the branch behind an `elseif`.
fn behind_elseif<F: Files>(
    files: &mut F,
    here: &OpenFile<'_>,
    branch: Branch,
    state: State,
    call: &Call,
) -> Result<(Branch, State), ReadFault>
    ensures says { OverCall (F.tells files.old) (F.tells files.new) here.now call.now
        (λ limits held dir. behind_elseif limits held dir call.now state branch) result }
    ensures asks { Blames (λ path. (branch ≡ branches.Waiting)
        × ConditionAsks here.now.limits.now here.now.file.now.dir call.now state path) result }
    ensures calls { MakesCalls (if is_untaken branch
        then condition_calls here.now.limits.now here.now.file.now.dir call.now state else [])
        (F.calls files.old) (F.calls files.new) result }
{
    match branch {
        Branch::Waiting => asked(files, here, state, call),
        Branch::Taken => Ok((Branch::Over, state)),
        Branch::Over => Ok((Branch::Over, state)),
        Branch::Idle => Ok((Branch::Idle, state)),
        Branch::ElseTaken => unpaired(here, call.line),
        Branch::ElseOver => unpaired(here, call.line),
    }
}

/// Refuses a command that belongs to no open `if`.
fn unpaired<T>(here: &OpenFile<'_>, line: u32) -> Result<T, ReadFault>
    ensures says { IsAnswerOf (Err (At here.now.file.now.path line UnpairedIf)) result }
    ensures unfailed { Unfailed result }
{
    here.at_line(line, Err(Stop::Refused(ReadKind::UnpairedIf)))
}

/// Evaluates a condition: its command is counted, and the branch is taken if the condition holds.
fn asked<F: Files>(
    files: &mut F,
    here: &OpenFile<'_>,
    state: State,
    call: &Call,
) -> Result<(Branch, State), ReadFault>
    ensures says { OverCall (F.tells files.old) (F.tells files.new) here.now call.now
        (λ limits held dir. asked limits held dir call.now state) result }
    ensures asks { Blames (ConditionAsks here.now.limits.now here.now.file.now.dir call.now state) result }
    ensures calls { MakesCalls (condition_calls here.now.limits.now here.now.file.now.dir call.now state)
        (F.calls files.old) (F.calls files.new) result }
{
    let begun = state.begin(here.alloc, here.limits, &call.args);
    let (values, state) = here.at_line(call.line, begun)?;
    let found = holds(files, here, call.line, &state.variables, values.as_slice())?;
    Ok((branch_by(found), state))
}

fn branch_by(is: bool) -> Branch
    ensures { result ≡ (if is then branches.Taken else branches.Waiting) }
{
    if is { Branch::Taken } else { Branch::Waiting }
}

/// Begins the last branch of the innermost `if`.
///
/// Source: CMake manual, else.
fn do_else(here: &OpenFile<'_>, ifs: Ifs, state: State) -> Result<Step, Stop>
    ensures { Follows result (begun_else here.now.limits.now ifs state) }
{
    let Some((inner, outer)) = ifs.take_inner() else {
        return Err(Stop::Refused(ReadKind::UnpairedIf));
    };
    let (branch, state) = behind_else(here.limits, inner.branch, state)?;
    Ok(in_branch(here.alloc, inner.line, outer, branch, state)?)
}

/// Returns the branch behind an `else`.
fn behind_else(limits: &Limits, branch: Branch, state: State) -> Result<(Branch, State), Stop>
    ensures { Follows result (behind_else limits.now state branch) }
{
    match branch {
        Branch::Waiting => Ok((Branch::ElseTaken, state.counted(limits)?)),
        Branch::Taken | Branch::Over => Ok((Branch::ElseOver, state)),
        Branch::Idle => Ok((Branch::Idle, state)),
        Branch::ElseTaken | Branch::ElseOver => Err(Stop::Refused(ReadKind::UnpairedIf)),
    }
}

/// Ends the innermost `if`.
///
/// Source: CMake manual, endif.
fn do_endif(here: &OpenFile<'_>, ifs: Ifs, state: State) -> Result<Step, Stop>
    ensures { Follows result (left ifs state) }
{
    let Some((_, outer)) = ifs.take_inner() else {
        return Err(Stop::Refused(ReadKind::UnpairedIf));
    };
    Ok(Step {
        ifs: outer,
        state,
        opens: Opens::nothing(here.alloc),
    })
}

/// Puts an open `if` with this branch inside the others.
fn in_branch(
    alloc: Global,
    line: u32,
    outer: Ifs,
    branch: Branch,
    state: State,
) -> Result<Step, NoMemory>
    ensures { IfOk result (λ step. step ≡ in_branch line outer (branch, state)) }
{
    Ok(Step {
        ifs: outer.with(OpenIf { line, branch })?,
        state,
        opens: Opens::nothing(alloc),
    })
}
