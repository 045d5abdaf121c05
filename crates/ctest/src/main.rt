//! The program `ctest`: it runs the tests of the folder that it is started in.
//!
//! Hands up: nothing; it is the program.
//! Read first: `ctest_main` of ct_app.
#![tactic(auto)]

ghost use Rattle.std.specs.Prelude.{◌<◌, ◌-◌, ◌^◌, length, vec_len};

use ct_app::ctest_main;
use ct_edge::{RealFiles, RealSink};
use ct_start::{exit_code, start};
use std::process::ExitCode;

fn main(rt: HostRuntime) -> ExitCode {
    let run = start(
        rt,
        |words, env, gates|
            requires few { length words.now < 2 ^ 32 - 1 }
            requires some { 0 < vec_len gates }
        {
            let (files, sink) = (RealFiles::new(rt), RealSink::new(rt.stdout()));
            ctest_main(&rt, rt.alloc(), words, env, files, gates, sink)
        },
    );
    exit_code(run, |run| run.status)
}
