//! The command `abtrun`: runs a workload text, and prints its report and, if asked, its journal; checks journals; finds flows.
#![tactic(auto)]

use abt_functions::TextFunctions;
use abt_order::StoredOrder;
use abt_run::{Keep, NAME, abtrun};
use abt_shell::run;
use abt_source::{RealFiles, RealSink};
use std::process::ExitCode;

fn main(rt: HostRuntime) -> ExitCode {
    // Order 0 rotates, and order 1 mirrors.
    let orders = [StoredOrder::rotating(), StoredOrder::mirroring()];
    run(&rt, NAME, |words| {
        let answer = abtrun(
            &rt,
            rt.alloc(),
            words,
            &mut RealFiles::new(&rt, rt.alloc()),
            &mut RealSink::out(&rt),
            &mut RealSink::err(&rt),
            &TextFunctions,
            &orders,
            Keep::IfPrinted,
        );
        answer.status
    })
}
