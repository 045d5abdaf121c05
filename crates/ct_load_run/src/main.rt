//! The program that loads: it runs as many generated tests as its word asks for, without programs.
//! It prints the summary of that run.
//!
//! Hands up: nothing; it is the program.
//! Read first: `load_main` of ct_load.
#![tactic(auto)]

use ct_edge::RealSink;
use ct_load::load_main;
use ct_start::{exit_code, start_by_words};
use std::process::ExitCode;

fn main(rt: HostRuntime) -> ExitCode {
    let load = start_by_words(rt, |words| {
        load_main(&rt, rt.alloc(), words, RealSink::new(rt.stdout()))
    });
    exit_code(load, |load| load.status)
}
