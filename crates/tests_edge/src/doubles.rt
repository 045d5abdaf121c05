//! What stands in the tests for a program and its outputs, for the standard output and for the clock.

use ct_base::Blob;
use ct_edge::Started;
use std::io;
use std::io::{ErrorKind, Read, Write};
use std::os::fd::{AsRawFd, RawFd};
use std::os::unix::process::ExitStatusExt;
use std::process::ExitStatus;
use std::rt::Clock;
use std::time::Duration;

/// A source that gives one byte at a time, and fails after `good` bytes.
#[derive(Drop)]
pub(crate) struct Drip {
    pub(crate) left: &'static [u8],
    pub(crate) good: u64,
    /// Whether its descriptor is never ready once no byte is left.
    pub(crate) dries: bool,
    /// A descriptor that is always ready.
    pub(crate) ready: RawFd,
}

impl Read for Drip {
    fn read(&mut self, room: &mut [u8]) -> io::Result<usize> {
        if self.good == 0 {
            return Err(io::Error::from(ErrorKind::Other));
        }
        let Some((first, left)) = self.left.split_first() else {
            return Ok(0);
        };
        if room.is_empty() {
            return Ok(0);
        }
        room[0] = *first;
        self.left = left;
        self.good -= 1;
        Ok(1)
    }
}

impl AsRawFd for Drip {
    fn as_raw_fd(&self) -> RawFd {
        if self.left.is_empty() && self.dries {
            -1
        } else {
            self.ready
        }
    }
}

/// An output that takes one byte at a time. After `good` bytes it fails, or takes nothing.
#[derive(Drop)]
pub(crate) struct Sip {
    pub(crate) taken: Blob,
    pub(crate) good: u64,
    pub(crate) fails: bool,
}

impl Write for Sip {
    fn write(&mut self, bytes: &[u8]) -> io::Result<usize> {
        let Some(first) = bytes.get(..1) else {
            return Ok(0);
        };
        if self.good > 0 && self.taken.append(first).is_ok() {
            self.good -= 1;
            return Ok(1);
        }
        if self.fails {
            return Err(io::Error::from(ErrorKind::Other));
        }
        Ok(0)
    }

    fn flush(&mut self) -> io::Result<()> {
        Ok(())
    }
}

/// A program that exits with 7 and is found ended at the third look. One of its calls fails.
#[derive(Drop)]
pub(crate) struct Dummy {
    looks: u64,
    /// How often it was stopped, also where that failed.
    pub(crate) stops: u64,
    /// `stop`, `end` or `look`, or another word.
    fails: &'static str,
    /// How it ended, where it was waited for.
    status: Option<ExitStatus>,
    is_told: bool,
}

impl Dummy {
    /// Makes the program of which this call fails.
    pub(crate) fn failing(fails: &'static str) -> Dummy {
        Dummy {
            looks: 0,
            stops: 0,
            fails,
            status: None,
            is_told: false,
        }
    }

    fn answer<T: Drop>(&self, call: &str, answer: T) -> io::Result<T> {
        if self.fails == call {
            return Err(io::Error::from(ErrorKind::Other));
        }
        Ok(answer)
    }
}

impl Started for Dummy {
    ghost status = { λ program. program.status };

    ghost is_told = { λ program. program.is_told };

    fn stop(&mut self) -> io::Result<()> {
        self.stops = self.stops.saturating_add(1);
        self.answer("stop", ())?;
        self.is_told = true;
        Ok(())
    }

    fn end(&mut self) -> io::Result<ExitStatus> {
        let status = self.answer("end", ExitStatus::from_raw(7 << 8))?;
        self.status = Some(status);
        Ok(status)
    }

    fn look(&mut self) -> io::Result<Option<ExitStatus>> {
        self.looks = self.looks.saturating_add(1);
        let ended = if self.looks < 3 {
            None
        } else {
            Some(ExitStatus::from_raw(7 << 8))
        };
        self.status = self.answer("look", ended)?;
        Ok(self.status)
    }
}

/// A clock that cannot be read.
pub(crate) struct NoClock;

impl Clock for NoClock {
    fn monotonic(&self) -> io::Result<Duration> {
        Err(io::Error::from(ErrorKind::Other))
    }

    fn since_1970(&self) -> io::Result<Duration> {
        Err(io::Error::from(ErrorKind::Other))
    }
}
