//! The command-line tool over heap images.
#![tactic(auto)]

use std::process::ExitCode;
use tool_program::run_program;

fn main(rt: HostRuntime) -> ExitCode {
    run_program(&rt, &rt.stderr())
}
