ghost use Rattle.std.specs.Prelude.{◌≡◌, ◌∷◌, [], IfOk, IfErr};
ghost use Rattle.ct_report.specs.PutLines.{PutsLines};
ghost use Rattle.ct_app.specs.declared.outcome.Outcome.TheVariants as AppCause;
ghost use Rattle.ct_app.specs.Calls.{Tries};
ghost use Rattle.ct_app.specs.Outcome.{fault_line};
ghost use Rattle.ct_journal.specs.CheckFound.{refused_line as line_of_refusal};
ghost use Rattle.ct_journal.specs.CheckSteps.{IsCheckOf, IsCutShortBehind, IsSaid, IsUnended, IsUnsaid, SaysFinding, ReportsCheck, ReportsWhy, finding_line as line_of_finding};

use crate::check::CheckOutcome;
use crate::check_find::Finding;
use ct_app::{Outcome, Unplanned, report_outcome};
use ct_base::{Blob, NoMemory, Sink, SinkFault};
use std::alloc::Global;

/// Puts the line of what was found, or of why nothing was found. Returns the outcome and the exit status.
pub(crate) fn report_check<S: Sink>(
    alloc: Global,
    sink: &mut S,
    found: Result<Finding, Unplanned>,
) -> (CheckOutcome, u8)
    requires unended { IfErr found (λ why. IsUnended why.outcome) }
    ensures { ReportsCheck found result.0 result.1 (S.tells sink.old) (S.tells sink.new) }
{
    match found {
        Ok(finding) => report_finding(alloc, sink, finding),
        Err(why) => report_why(alloc, sink, why),
    }
}

#[tactic(auto, using(crate::proofs::CheckStepLemmas::reported_unended))]
fn report_why<S: Sink>(alloc: Global, sink: &mut S, why: Unplanned) -> (CheckOutcome, u8)
    requires unended { IsUnended why.outcome }
    ensures { ReportsWhy why result.0 result.1 (S.tells sink.old) (S.tells sink.new) }
{
    let Unplanned { outcome, names } = why;
    let (reported, status) = report_outcome(alloc, sink, names.as_slice(), outcome);
    (check_outcome(reported), status)
}

fn check_outcome(reported: Outcome) -> CheckOutcome
    requires { IsUnended reported }
    ensures { IsCheckOf reported result }
{
    match reported {
        Outcome::Completed | Outcome::Listed => unreachable!(),
        Outcome::Usage { word, kind } => CheckOutcome::Usage { word, kind },
        Outcome::Refused(refusal) => CheckOutcome::Refused(refusal),
        Outcome::FilesFault { path } => CheckOutcome::FilesFault { path },
        Outcome::OutputFault => CheckOutcome::OutputFault,
        Outcome::Memory => CheckOutcome::Memory,
    }
}

#[tactic(auto, using(crate::proofs::CheckStepLemmas::said_line, crate::proofs::CheckStepLemmas::unsaid_line, crate::proofs::CheckStepLemmas::short_line))]
fn report_finding<S: Sink>(alloc: Global, sink: &mut S, finding: Finding) -> (CheckOutcome, u8)
    ensures { SaysFinding finding result.0 result.1 (S.tells sink.old) (S.tells sink.new) }
{
    match put_finding(alloc, sink, finding) {
        Ok(()) => said(finding),
        Err(SinkFault::Failed) => unsaid(finding),
        Err(SinkFault::NoMemory) => {
            report_memory(alloc, sink, finding);
            (CheckOutcome::Memory, 5)
        }
    }
}

fn put_finding<S: Sink>(alloc: Global, sink: &mut S, finding: Finding) -> Result<(), SinkFault>
    ensures { PutsLines (line_of_finding finding ∷ []) (S.tells sink.old) (S.tells sink.new) result }
{
    let line = finding_line(alloc, finding)?;
    sink.put(line.bytes())?;
    Ok(())
}

fn finding_line(alloc: Global, finding: Finding) -> Result<Blob, NoMemory>
    ensures { IfOk result (λ line. line ≡ line_of_finding finding) }
{
    match finding {
        Finding::Accepted => Blob::of(alloc, b"journal accepted\n"),
        Finding::Refused { line } => refused_line(alloc, line),
        Finding::TooLong => Blob::of(alloc, b"ctest: journal: too long\n"),
    }
}

fn refused_line(alloc: Global, line: u32) -> Result<Blob, NoMemory>
    ensures { IfOk result (λ text. text ≡ line_of_refusal line) }
{
    let mut text = Blob::of(alloc, b"journal refused at line ")?;
    text.append_number(alloc, u128::from(line))?;
    text.append(b"\n")?;
    Ok(text)
}

/// Gives the outcome and the exit status where the line of what was found was put.
fn said(finding: Finding) -> (CheckOutcome, u8)
    ensures { IsSaid finding result.0 result.1 }
{
    match finding {
        Finding::Accepted => (CheckOutcome::Yes, 0),
        Finding::Refused { line } => (CheckOutcome::No { line }, 9),
        Finding::TooLong => (CheckOutcome::TooLong, 2),
    }
}

/// Gives the outcome and the exit status where the put of the line failed.
fn unsaid(finding: Finding) -> (CheckOutcome, u8)
    ensures { IsUnsaid finding result.0 result.1 }
{
    match finding {
        Finding::Accepted | Finding::Refused { .. } => (CheckOutcome::OutputFault, 4),
        Finding::TooLong => (CheckOutcome::TooLong, 2),
    }
}

/// Reports want of memory where it came at a printed line.
fn report_memory<S: Sink>(alloc: Global, sink: &mut S, finding: Finding)
    ensures { IsCutShortBehind finding (S.tells sink.old) (S.tells sink.new) }
{
    match finding {
        Finding::Accepted => try_memory(alloc, sink),
        Finding::Refused { .. } => try_memory(alloc, sink),
        Finding::TooLong => {}
    }
}

/// Tries the line of want of memory.
#[tactic(auto, using(crate::proofs::CheckStepLemmas::memory_tries))]
fn try_memory<S: Sink>(alloc: Global, sink: &mut S)
    ensures { Tries (fault_line [] AppCause.Memory) (S.tells sink.old) (S.tells sink.new) }
{
    let _ = report_outcome(alloc, sink, &[], Outcome::Memory);
}
