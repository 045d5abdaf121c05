//! The program `ct_check`: it checks whether the file that its first word names is the journal of a whole run of
//! the tests of the folder that it is started in. It runs no test.
//!
//! Hands up: nothing; it is the program.
//! Read first: `check_main` of ct_journal.
#![tactic(auto)]

use ct_edge::{RealFiles, RealSink};
use ct_journal::check_main;
use ct_start::{exit_code, start_by_words};
use std::process::ExitCode;

fn main(rt: HostRuntime) -> ExitCode {
    let check = start_by_words(rt, |words| {
        let (files, sink) = (RealFiles::new(rt), RealSink::new(rt.stdout()));
        check_main(rt.alloc(), words, files, sink)
    });
    exit_code(check, |check| check.status)
}
