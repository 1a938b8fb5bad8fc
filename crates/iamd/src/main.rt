//! The program: `iam_host` runs it.
#![tactic(auto)]

use std::process::ExitCode;

fn main(rt: HostRuntime) -> ExitCode {
    ExitCode::from(iam_host::exit_of(&rt))
}
