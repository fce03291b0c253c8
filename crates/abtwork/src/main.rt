//! The command `abtwork`: computes on threads what its words ask for, and prints the answer.
#![tactic(auto)]

use abt_compute::{NAME, abtwork};
use abt_shell::run;
use abt_source::{RealFiles, RealSink};
use std::process::ExitCode;

fn main(rt: HostRuntime) -> ExitCode {
    run(&rt, NAME, |words| {
        abtwork(
            &rt,
            rt.alloc(),
            words,
            &mut RealFiles::new(&rt, rt.alloc()),
            &mut RealSink::out(&rt),
            &mut RealSink::err(&rt),
        )
    })
}
