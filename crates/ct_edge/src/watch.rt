ghost use Rattle.std.specs.Prelude.{◌≡◌, ◌≢◌, [], false, IfOk, IfSome, IsOk, IsSome, IsSomeAnd, None, OnOk, Option, Bool, Some, true};
ghost use Rattle.std.specs.Io.KnownBytes.{IsAtEnd};
ghost use Rattle.ct_core.specs.Gate.{is_not_started};
ghost use Rattle.ct_verdict.specs.declared.attempt.How.TheVariants as Ends;
ghost use Rattle.std.specs.declared.process.status.ExitStatus.{ExitStatus};
ghost use Rattle.ct_edge.specs.Heard.{Hears, HearsBoth, known_beside};
ghost use Rattle.ct_edge.specs.Process.{has_run, how_of_end};
ghost use Rattle.ct_edge.specs.Transfer.{MovesTo};

use crate::fault::StartFault;
use crate::keep::Keep;
use crate::limit::Limit;
use crate::pipe::read_both;
use ct_base::Ear;
use ct_verdict::How;
use std::io::Read;
use std::os::fd::AsRawFd;
use std::process::{Child, ChildStderr, ChildStdout, ExitStatus};
use std::rt::Clock;
use std::time::Duration;
use std::{io, thread};

/// How many looks at a program that has closed its outputs come without a pause: it usually ends at once.
const QUICK_LOOKS: u64 = 64;

/// The first pause between two later looks, in microseconds;
/// each further pause is twice as long, up to the longest.
const SHORTEST_PAUSE: u64 = 100;

const LONGEST_PAUSE: u64 = 20_000;

/// A program that was started, as far as it is stopped and waited for.
///
/// `status` is how it ended, where it was waited for. `is_told` is whether it was told to stop.
pub trait Started {
    ghost status: { Self → Option ExitStatus };

    ghost is_told: { Self → Bool };

    /// Stops the program, if it still runs.
    fn stop(&mut self) -> io::Result<()>
        ensures told { IfOk result (λ _. is_told self.new ≡ true) };

    /// Waits for the end of the program.
    fn end(&mut self) -> io::Result<ExitStatus>
        ensures waited { IfOk result (λ ended. status self.new ≡ Some ended) }
        ensures told { is_told self.new ≡ is_told self.old };

    /// Returns how the program ended; `None` if it still runs.
    fn look(&mut self) -> io::Result<Option<ExitStatus>>
        ensures waited { IfOk result (λ ended. status self.new ≡ ended) };
}

/// A program of the machine, and whether it was told to stop.
#[derive(Drop)]
pub struct Program {
    child: Child,
    is_told: bool,
}

impl Program {
    /// Takes a program that was started.
    fn of(child: Child) -> Program {
        Program {
            child,
            is_told: false,
        }
    }
}

impl Started for Program {
    ghost use Rattle.std.specs.Process.{child_status};

    ghost status = { λ program. child_status program.child };

    ghost is_told = { λ program. program.is_told };

    fn stop(&mut self) -> io::Result<()> {
        self.child.kill()?;
        self.is_told = true;
        Ok(())
    }

    fn end(&mut self) -> io::Result<ExitStatus> {
        self.child.wait()
    }

    fn look(&mut self) -> io::Result<Option<ExitStatus>> {
        self.child.try_wait()
    }
}

/// A program that runs, and the ends of its two outputs.
#[derive(Drop)]
pub struct Running<S, O, P> {
    pub child: S,
    pub output: O,
    pub errors: P,
}

impl Running<Program, ChildStdout, ChildStderr> {
    /// Takes the outputs of a program that was started. A program without them is stopped.
    pub fn of(mut child: Child) -> Result<Running<Program, ChildStdout, ChildStderr>, StartFault>
        ensures ok { IsSome child.stdout → IsSome child.stderr → IsOk result }
        ensures output { IfOk result (λ program. child.stdout ≡ Some program.output) }
        ensures errors { IfOk result (λ program. child.stderr ≡ Some program.errors) }
    {
        let (Some(output), Some(errors)) = (child.stdout.take(), child.stderr.take()) else {
            stop(&mut Program::of(child))?;
            return Err(StartFault::Failed);
        };
        Ok(Running {
            child: Program::of(child),
            output,
            errors,
        })
    }
}

/// Hands what a program writes to the ear, its standard output while
/// it runs and then its standard error, and returns how it ended.
///
/// It returns when the program has ended and no process holds its outputs any more. Else it returns
/// at the limit: it stops the program, waits for it, and reads its outputs no further. A program that
/// the system refuses to stop, or that cannot be waited for, is a fault, and may run on.
#[tactic(auto, using(crate::proofs::KeepLemmas::hears_both))]
pub fn attend<C: Clock, S: Started, O: Read + AsRawFd, P: Read + AsRawFd, E: Ear, K: Keep>(
    clock: &C,
    limit: &Limit,
    program: &mut Running<S, O, P>,
    ear: &mut E,
    kept: &mut K,
) -> Result<How, StartFault>
    requires empty { IfSome (K.holds kept.old) (λ bytes. bytes ≡ []) }
    ensures heard { OnOk result (HearsBoth (O.remaining program.old.output) (O.remaining program.new.output)
        (known_beside (K.holds kept.old) (P.remaining program.old.errors)) (known_beside (K.holds kept.old) (P.remaining program.new.errors))
        (E.stands_for ear.old) (E.stands_for ear.new)) }
    ensures kept { E.kept ear.new ≡ E.kept ear.old }
    ensures output { IfOk result (λ how. how ≢ Ends.TimedOut → IsAtEnd (O.remaining program.new.output)) }
    ensures errors { IfOk result (λ how. how ≢ Ends.TimedOut → IsAtEnd (P.remaining program.new.errors)) }
    ensures ran { IfOk result (λ how. has_run how ≡ true) }
    ensures started { IfOk result (λ how. is_not_started how ≡ false) }
    ensures unlimited { IfOk result (λ how. how ≡ Ends.TimedOut → IsSome limit.now) }
    ensures waited { IfOk result (λ _. IsSome (S.status program.new.child)) }
    ensures ended { IfOk result (λ how. how ≢ Ends.TimedOut → IsSomeAnd (S.status program.new.child) (λ status. how ≡ how_of_end (Some status))) }
    ensures stopped { IfOk result (λ how. how ≡ Ends.TimedOut → S.is_told program.new.child ≡ true) }
{
    let ended = match watch(clock, limit, program, ear, kept) {
        Ok(Some(status)) => Some(status),
        Ok(None) => {
            stop(&mut program.child)?;
            None
        }
        Err(fault) => {
            let _stopped = stop(&mut program.child);
            return Err(fault);
        }
    };
    kept.hand_on(ear)?;
    Ok(how_of(ended))
}

/// Reads both outputs of a program to their ends and waits for its own end. `None` is the limit.
fn watch<C: Clock, S: Started, O: Read + AsRawFd, P: Read + AsRawFd, E: Ear, K: Keep>(
    clock: &C,
    limit: &Limit,
    program: &mut Running<S, O, P>,
    ear: &mut E,
    kept: &mut K,
) -> Result<Option<ExitStatus>, StartFault>
    ensures heard { OnOk result (Hears (O.remaining program.old.output) (O.remaining program.new.output) (E.stands_for ear.old) (E.stands_for ear.new)) }
    ensures kept { E.kept ear.new ≡ E.kept ear.old }
    ensures moved { OnOk result (MovesTo (P.remaining program.old.errors) (K.holds kept.old) (P.remaining program.new.errors) (K.holds kept.new)) }
    ensures output { IfOk result (λ ended. IfSome ended (λ _. IsAtEnd (O.remaining program.new.output))) }
    ensures errors { IfOk result (λ ended. IfSome ended (λ _. IsAtEnd (P.remaining program.new.errors))) }
    ensures unlimited { IfOk result (λ ended. ended ≡ None → IsSome limit.now) }
    ensures waited { IfOk result (λ ended. IfSome ended (λ status. S.status program.new.child ≡ Some status)) }
{
    let Running {
        child,
        output,
        errors,
    } = program;
    if !read_both(clock, limit, output, errors, ear, kept)? {
        return Ok(None);
    }
    end_of(clock, limit, child)
}

/// Waits for the end of a program. `None` is the limit.
fn end_of<C: Clock, S: Started>(
    clock: &C,
    limit: &Limit,
    child: &mut S,
) -> Result<Option<ExitStatus>, StartFault>
    ensures unlimited { IfOk result (λ ended. ended ≡ None → IsSome limit.now) }
    ensures waited { IfOk result (λ ended. IfSome ended (λ status. S.status child.new ≡ Some status)) }
{
    if !limit.is_set() {
        return Ok(Some(child.end()?));
    }
    let mut pause = SHORTEST_PAUSE;
    for look in 0..u64::MAX {
        let ended = child.look()?;
        if ended.is_some() {
            return Ok(ended);
        }
        let left = limit.left(clock, pause)?;
        if left == 0 {
            return Ok(None);
        }
        if look < QUICK_LOOKS {
            thread::yield_now();
        } else {
            thread::sleep(clock, Duration::from_micros(left));
            pause = (2 * pause).min(LONGEST_PAUSE);
        }
    }
    Err(StartFault::Failed)
}

/// Stops a program that still runs, and waits for its end.
fn stop<S: Started>(child: &mut S) -> Result<(), StartFault>
    ensures told { IfOk result (λ _. S.is_told child.new ≡ true) }
    ensures waited { IfOk result (λ _. IsSome (S.status child.new)) }
{
    child.stop()?;
    child.end()?;
    Ok(())
}

/// Returns how the program ended; `None` is the limit.
fn how_of(ended: Option<ExitStatus>) -> How
    ensures { result ≡ how_of_end ended }
{
    match ended.map(|status| status.code()) {
        Some(Some(code)) => How::Exited(code),
        Some(None) => How::Signalled,
        None => How::TimedOut,
    }
}
