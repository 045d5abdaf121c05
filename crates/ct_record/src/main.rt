//! The program `ct_record`: it runs the tests of the folder that it is started in, as `ctest` does, and writes
//! the journal of the run to the path that its first word names.
//!
//! Hands up: nothing; it is the program.
//! Read first: `record_main` of ct_journal.
#![tactic(auto)]

ghost use Rattle.std.specs.Prelude.{◌<◌, ◌-◌, ◌^◌, length, vec_len};

use ct_edge::{RealFiles, RealSink};
use ct_journal::record_main;
use ct_start::{exit_code, start};
use std::process::ExitCode;

fn main(rt: HostRuntime) -> ExitCode {
    let run = start(
        rt,
        |words, env, gates|
            requires few { length words.now < 2 ^ 32 - 1 }
            requires some { 0 < vec_len gates }
        {
            let (files, sink) = (RealFiles::new(rt), RealSink::new(rt.stdout()));
            record_main(&rt, rt.alloc(), words, env, files, gates, sink)
        },
    );
    exit_code(run, |run| run.status)
}
