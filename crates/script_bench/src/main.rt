//! The program `script_bench`: `run FILE..` runs documents, each of which holds a script and the answers of its objects. `serve FILE` runs a
//! document whose objects another program holds, except those with answers in the document. `check FILE..` says what is wrong with documents.
//! `legal FILE` judges a transcript.
#![tactic(auto)]

mod checks;
mod commands;
mod files;
mod judgements;
mod program;
mod records;

use script_input::Breakage;
use std::io::{BufReader, BufWriter, Input};
use std::process::ExitCode;

fn main(rt: HostRuntime) -> ExitCode {
    let mut err = rt.stderr();
    let out = match BufWriter::new(rt.alloc(), rt.stdout()) {
        Ok(out) => out,
        Err(_) => return ExitCode::from(program::broken(Breakage::Memory, &mut err)),
    };
    let input = match BufReader::new(rt.alloc(), rt.reader()) {
        Ok(input) => input,
        Err(_) => return ExitCode::from(program::broken(Breakage::Memory, &mut err)),
    };
    ExitCode::from(program::run(&rt, input, out, &mut err))
}
