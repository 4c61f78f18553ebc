//! A testbench of a UART. A driver sends the bytes of a sequence on a line, and a model writes each 10 ticks after it takes it. A monitor
//! observes it, and a scoreboard compares the seen bytes with the sent ones. The script is the file `uart.toml`.
#![tactic(auto)]

mod parts;
mod scoreboard;

use crate::parts::{Driver, Env, Model, Monitor, Sequence, Test};
use crate::scoreboard::Scoreboard;
use bench_run::{exit_status, run_script};
use rand_core::SeedableRng;
use rand_pcg::Pcg64;
use std::alloc::AllocError;
use std::fs;
use std::process::ExitCode;
use uvm_glob::Name;
use uvm_object::{Object, UvmObject};

/// Runs the script. Returns the exit status of the run, or 2 if the file cannot be read or is not a script.
fn main(rt: HostRuntime) -> ExitCode {
    let alloc = rt.alloc();
    let Ok(bytes) = fs::read(&rt, "uart.toml") else {
        let _ = eprintln!(rt; "example_uart: cannot read uart.toml");
        return ExitCode::from(2);
    };
    let script = match bench_script::read(alloc, bytes.as_slice()) {
        Ok(script) => script,
        Err(fault) => {
            let _ = eprintln!(rt; "example_uart: {fault}");
            return ExitCode::from(2);
        }
    };
    let mut words = Pcg64::seed_from_u64(1);
    let make = |type_name: &Name| -> Result<Option<Box<dyn UvmObject>>, AllocError> {
        let name = *type_name;
        Ok(Some(match type_name.as_bytes() {
            b"uart_test" => Box::new(alloc, Object::new(name, Test))?,
            b"uart_env" => Box::new(alloc, Object::new(name, Env))?,
            b"uart_driver" => Box::new(alloc, Object::new(name, Driver))?,
            b"uart_model" => Box::new(alloc, Object::new(name, Model::new()))?,
            b"uart_monitor" => Box::new(alloc, Object::new(name, Monitor))?,
            b"uart_scoreboard" => Box::new(alloc, Object::new(name, Scoreboard::new(alloc)))?,
            b"uart_sequence" => Box::new(alloc, Object::new(name, Sequence::new()))?,
            _ => return Ok(None),
        }))
    };
    let ended = run_script(alloc, script, &mut words, true, make, &mut rt.stdout());
    ExitCode::from(exit_status(&ended))
}
