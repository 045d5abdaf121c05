ghost use Rattle.std.specs.Prelude.{◌≡◌, ◌≢◌, ◌<◌, ◌∷◌, [], Err, IfOk, IsSome, Ok, OnOk, false, length, true};
ghost use Rattle.std.specs.Io.KnownBytes.{IsAtEnd};
ghost use Rattle.std.specs.IoError.{error_kind};
ghost use Rattle.std.specs.declared.io.ErrorKind.TheVariants as ErrorKind;
ghost use Rattle.ct_edge.specs.Heard.{Hears};
ghost use Rattle.ct_edge.specs.Transfer.{MovesTo};

use crate::fault::StartFault;
use crate::keep::Keep;
use crate::limit::Limit;
use ct_base::Ear;
use libc::net::{POLLIN, poll};
use libc::types::pollfd;
use std::io;
use std::io::{ErrorKind, Read};
use std::os::fd::{AsRawFd, RawFd};
use std::rt::Clock;

/// The longest single wait for an output of a program, in microseconds: an hour.
const LONGEST_WAIT: u64 = 3_600_000_000;

/// How many bytes of an output are read at a time at most: as many as a pipe holds on Linux.
const PIECE: usize = 65_536;

/// A descriptor that the system never finds ready.
const NO_DESCRIPTOR: RawFd = -1;

/// Hands what comes of an output to the ear, and keeps what comes of the errors beside it,
/// each as soon as it can be read. Tells whether both came to their ends within the limit.
#[tactic(auto, using(crate::proofs::HeardLemmas::hears_none, crate::proofs::HeardLemmas::hears_more, crate::proofs::KeepLemmas::moves_none, crate::proofs::KeepLemmas::moves_more))]
pub fn read_both<C: Clock, O: Read + AsRawFd, P: Read + AsRawFd, E: Ear, K: Keep>(
    clock: &C,
    limit: &Limit,
    output: &mut O,
    errors: &mut P,
    ear: &mut E,
    kept: &mut K,
) -> Result<bool, StartFault>
    ensures heard { OnOk result (Hears (O.remaining output.old) (O.remaining output.new) (E.stands_for ear.old) (E.stands_for ear.new)) }
    ensures kept { E.kept ear.new ≡ E.kept ear.old }
    ensures moved { OnOk result (MovesTo (P.remaining errors.old) (K.holds kept.old) (P.remaining errors.new) (K.holds kept.new)) }
    ensures output { IfOk result (λ whole. whole ≡ true → IsAtEnd (O.remaining output.new)) }
    ensures errors { IfOk result (λ whole. whole ≡ true → IsAtEnd (P.remaining errors.new)) }
    ensures unlimited { IfOk result (λ whole. whole ≡ false → IsSome limit.now) }
{
    let mut room = [0u8; PIECE];
    let mut more_output = true;
    let mut more_errors = true;
    for _ in 0..u64::MAX {
        if !more_output && !more_errors {
            return Ok(true);
        }
        let left = limit.left(clock, LONGEST_WAIT)?;
        if left == 0 {
            return Ok(false);
        }
        let both = [awaited(output, more_output), awaited(errors, more_errors)];
        let [output_ready, errors_ready] = ready(both, left)?;
        if output_ready {
            more_output = hear_piece(output, ear, &mut room)?;
        }
        if errors_ready {
            more_errors = keep_piece(errors, kept, &mut room)?;
        }
    }
    Err(StartFault::Failed)
}

/// Hands what one read into this room returns to the ear, and returns whether more may come.
fn hear_piece<R: Read, E: Ear>(output: &mut R, ear: &mut E, room: &mut [u8]) -> io::Result<bool>
    requires room { 0 < length room.old }
    ensures moved { OnOk result (Hears (R.remaining output.old) (R.remaining output.new) (E.stands_for ear.old) (E.stands_for ear.new)) }
    ensures kept { E.kept ear.new ≡ E.kept ear.old }
    ensures end { IfOk result (λ more. more ≡ false → IsAtEnd (R.remaining output.new)) }
{
    let got = output.read(room)?;
    ear.hear(&room[..got]);
    Ok(got > 0)
}

/// Keeps what one read into this room returns, and returns whether more may come.
fn keep_piece<R: Read, K: Keep>(
    errors: &mut R,
    kept: &mut K,
    room: &mut [u8],
) -> Result<bool, StartFault>
    requires room { 0 < length room.old }
    ensures moved { OnOk result (MovesTo (R.remaining errors.old) (K.holds kept.old) (R.remaining errors.new) (K.holds kept.new)) }
    ensures end { IfOk result (λ more. more ≡ false → IsAtEnd (R.remaining errors.new)) }
{
    let got = errors.read(room)?;
    kept.keep(&room[..got])?;
    Ok(got > 0)
}

/// Returns the descriptor that shows when an output can be read, while more may come of it.
fn awaited<R: AsRawFd>(output: &R, more: bool) -> pollfd {
    let fd = if more {
        output.as_raw_fd()
    } else {
        NO_DESCRIPTOR
    };
    pollfd {
        fd,
        events: POLLIN,
        revents: 0,
    }
}

/// Waits at most this many microseconds until one of these
/// can be read without waiting, and returns which of them can.
///
/// It waits in whole milliseconds, rounded up. A signal ends the wait early.
fn ready(mut awaited: [pollfd; 2], micros: u64) -> io::Result<[bool; 2]> {
    let millis = i32::try_from(micros.div_ceil(1000)).unwrap_or(i32::MAX);
    if poll(&mut awaited, millis) >= 0 {
        return Ok([awaited[0].revents != 0, awaited[1].revents != 0]);
    }
    broken_off(io::Error::from_raw_os_error(os::errno()))
}

/// Returns the answer of a wait that failed: after a signal
/// neither can be read, and any other error is a fault.
fn broken_off(fault: io::Error) -> io::Result<[bool; 2]>
    ensures signal { error_kind fault ≡ ErrorKind.Interrupted → result ≡ Ok (false ∷ false ∷ []) }
    ensures failed { error_kind fault ≢ ErrorKind.Interrupted → result ≡ Err fault }
{
    if fault.kind() == ErrorKind::Interrupted {
        return Ok([false, false]);
    }
    Err(fault)
}
