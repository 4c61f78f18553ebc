//! The program `test_fuzz_bench`: runs benches that are meant to break the kernel, and checks their runs from outside.
#![tactic(auto)]

mod commands;
mod program;

use std::process::ExitCode;

fn main(rt: HostRuntime) -> ExitCode {
    let mut out = rt.stdout();
    let mut err = rt.stderr();
    ExitCode::from(program::run(&rt, &mut out, &mut err))
}
