//! The command `abtview`: draws the journal of a run as an svg, or lists it as a trace.
#![tactic(auto)]

use abt_shell::run;
use abt_source::{RealFiles, RealSink};
use abt_view::{NAME, abtview};
use std::process::ExitCode;

fn main(rt: HostRuntime) -> ExitCode {
    run(&rt, NAME, |words| {
        abtview(
            rt.alloc(),
            words,
            &mut RealFiles::new(&rt, rt.alloc()),
            &mut RealSink::out(&rt),
            &mut RealSink::err(&rt),
        )
    })
}
