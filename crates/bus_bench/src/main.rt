//! The program `bus_bench`: `debug FILE` prints which types a script's factory makes, and `run FILE` runs the script.
#![tactic(auto)]

mod program;

use bus_jobs::{Verdict, tell};
use script_input::Breakage;
use std::io::BufWriter;
use std::process::ExitCode;

fn main(rt: HostRuntime) -> ExitCode {
    let mut err = rt.stderr();
    ExitCode::from(match BufWriter::new(rt.alloc(), rt.stdout()) {
        Ok(mut out) => program::run(&rt, &mut out, &mut err),
        Err(_) => tell(&Verdict::Broken(Breakage::Memory), &mut err),
    })
}
