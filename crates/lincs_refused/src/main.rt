//! The same program, whose stored run ends with a refused row: with status 5, and with no byte of the
//! error line in the output.
#![tactic(auto)]

use std::process::ExitCode;

fn main(rt: HostRuntime) -> ExitCode {
    lincs_top::start(&rt)
}
