//! The command `abtwaves`: runs a workload text whose streams are started and ended by units, and prints its report and its waves.
#![tactic(auto)]

use abt_functions::TextFunctions;
use abt_lives::{NAME, abtwaves};
use abt_order::StoredOrder;
use abt_shell::run;
use abt_source::{RealFiles, RealSink};
use std::process::ExitCode;

fn main(rt: HostRuntime) -> ExitCode {
    // Order 0 rotates, and order 1 mirrors.
    let orders = [StoredOrder::rotating(), StoredOrder::mirroring()];
    run(&rt, NAME, |words| {
        let ended = abtwaves(
            &rt,
            rt.alloc(),
            words,
            &mut RealFiles::new(&rt, rt.alloc()),
            &mut RealSink::out(&rt),
            &mut RealSink::err(&rt),
            &TextFunctions,
            &orders,
        );
        ended.status
    })
}
