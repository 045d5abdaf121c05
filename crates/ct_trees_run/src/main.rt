//! The program `ct_trees`: it runs the tests of several build trees, over one pool of slots, locks and
//! processors.
//!
//! Hands up: nothing; it is the program.
//! Read first: `trees_main` of ct_trees.
#![tactic(auto)]

ghost use Rattle.std.specs.Prelude.{◌<◌, ◌-◌, ◌^◌, length, vec_len};

use ct_edge::{RealFiles, RealSink};
use ct_start::{exit_code, start};
use ct_trees::trees_main;
use std::process::ExitCode;

fn main(rt: HostRuntime) -> ExitCode {
    let run = start(
        rt,
        |words, env, gates|
            requires few { length words.now < 2 ^ 32 - 1 }
            requires some { 0 < vec_len gates }
        {
            let (files, sink) = (RealFiles::new(rt), RealSink::new(rt.stdout()));
            trees_main(&rt, rt.alloc(), words, env, files, gates, sink)
        },
    );
    exit_code(run, |run| run.status)
}
