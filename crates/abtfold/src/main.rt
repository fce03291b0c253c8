//! The command `abtfold`: folds the numbers from 1 to N with W workers on threads, and prints the sum.
#![tactic(auto)]

use abt_callbacks::{NAME, PlainSum, abtfold};
use abt_shell::run;
use abt_source::RealSink;
use std::process::ExitCode;

fn main(rt: HostRuntime) -> ExitCode {
    run(&rt, NAME, |words| {
        abtfold(
            &rt,
            rt.alloc(),
            words,
            &mut RealSink::out(&rt),
            &mut RealSink::err(&rt),
            PlainSum,
        )
    })
}
