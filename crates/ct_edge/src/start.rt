ghost use Rattle.std.specs.Prelude.{◌≡◌, IfOk, IfSome};
ghost use Rattle.std.specs.IoError.{raw_os_error};
ghost use Rattle.ct_edge.specs.Process.{has_no_format, is_shortage};

use crate::fault::StartFault;
use crate::limit::Limit;
use libc::{EAGAIN, EMFILE, ENOEXEC};
use std::process::{Child, Command};
use std::time::Duration;
use std::{io, thread};

/// How often a start is tried at most: with the pauses, for some ten seconds.
const MOST_TRIES: u32 = 200;

/// The pause between two tries, in microseconds.
const PAUSE: u64 = 50_000;

/// The error of a system that has no descriptor left for any process.
const ENFILE: i32 = 23;

/// Starts a program, and begins its limit, in microseconds; `None` is no limit. Where the file is
/// no program by its format, `None` is returned.
///
/// A start takes more descriptors than a program that runs. So many starts at once may lack some
/// that come back at once. While the system is short of descriptors or processes, the start is tried
/// again; the limit begins with the last try.
pub(crate) fn start(
    rt: HostRuntime,
    mut command: Command,
    micros: Option<u64>,
) -> Result<Option<(Child, Limit)>, StartFault>
    ensures { IfOk result (λ started. IfSome started (λ it. it.1 ≡ micros)) }
{
    for _ in 0..MOST_TRIES {
        let limit = Limit::from_now(&rt, micros)?;
        match command.spawn(&rt) {
            Err(fault) if is_shortage(&fault) => {
                thread::sleep(&rt, Duration::from_micros(PAUSE));
            }
            Err(fault) if has_no_format(&fault) => return Ok(None),
            started => return Ok(Some((started?, limit))),
        }
    }
    Err(StartFault::Failed)
}

/// Returns whether the file is no program by its format.
fn has_no_format(fault: &io::Error) -> bool
    ensures { result ≡ has_no_format (raw_os_error fault.now) }
{
    fault.raw_os_error() == Some(ENOEXEC)
}

/// Returns whether the system was short of descriptors or processes.
fn is_shortage(fault: &io::Error) -> bool
    ensures { result ≡ is_shortage (raw_os_error fault.now) }
{
    matches!(fault.raw_os_error(), Some(EAGAIN | ENFILE | EMFILE))
}
