//! The program `ct_explain`: it tells what made a recorded run as long as it is, from the journal that its
//! first word names and the tests of the folder that it is started in. It runs no test.
//!
//! Hands up: nothing; it is the program.
//! Read first: `explain_main` of ct_explain.
#![tactic(auto)]

use ct_edge::{RealFiles, RealSink};
use ct_explain::explain_main;
use ct_start::{exit_code, start_by_words};
use std::process::ExitCode;

fn main(rt: HostRuntime) -> ExitCode {
    let explained = start_by_words(rt, |words| {
        let (files, sink) = (RealFiles::new(rt), RealSink::new(rt.stdout()));
        explain_main(rt.alloc(), words, files, sink)
    });
    exit_code(explained, |explained| explained.status)
}
