//! The command line.
#![tactic(auto)]

use std::process::ExitCode;

fn main(rt: HostRuntime) -> ExitCode {
    lincs_top::start(&rt)
}
