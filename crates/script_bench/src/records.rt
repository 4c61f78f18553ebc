//! The files that a run leaves: its log as JSON, and its waves.

use crate::commands::Options;
use crate::files::BROKEN;
use bench_core::Core;
use bench_waves::{write_save, write_waves};
use script_jobs::EndedRun;
use script_json::write_log;
use std::fs;
use std::io::{self, BufWriter, Write};
use std::rt::Files;

/// Writes the files that the options ask for, and to `err` why one could not be written. Returns the exit status: 0, or 3 if a file could not be
/// written.
pub fn write_records<R: Files + AllocGlobal, E: Write>(
    rt: &R,
    options: &Options<'_>,
    run: &EndedRun,
    err: &mut E,
) -> u8 {
    let mut status = 0;
    if let Some(path) = options.json {
        status = status.max(reported(path, json_written(rt, path, run), err));
    }
    if let Some(path) = options.wave {
        let written = waves_written(rt, path, options.steps, &run.core);
        status = status.max(reported(path, written, err));
    }
    status
}

/// Writes the waves of a core to the file that the options name, and to `err` why it could not be written. Returns the exit status: 0, or 3 if
/// a file could not be written.
pub fn write_waves_of<R: Files + AllocGlobal, E: Write>(
    rt: &R,
    options: &Options<'_>,
    core: &Core,
    err: &mut E,
) -> u8 {
    match options.wave {
        Some(path) => reported(path, waves_written(rt, path, options.steps, core), err),
        None => 0,
    }
}

// Writes why a file could not be written to `err`. Returns the exit status.
fn reported<E: Write>(path: &str, written: io::Result<()>, err: &mut E) -> u8 {
    let Err(error) = written else {
        return 0;
    };
    let why = match error.kind() {
        io::ErrorKind::OutOfMemory => "memory",
        io::ErrorKind::InvalidInput => "a time in steps needs more than 64 bits",
        _ => "cannot write the file",
    };
    let _ = writeln!(err, "script_bench: {path}: {why}");
    BROKEN
}

// Writes the log of a run to a file, in place of what the file held. Errors: those of the file; out of memory.
fn json_written<R: Files + AllocGlobal>(rt: &R, path: &str, run: &EndedRun) -> io::Result<()> {
    let mut out = BufWriter::new(rt.alloc(), fs::create(rt, path)?)?;
    write_log(rt.alloc(), &run.core, &mut out)?;
    out.flush()
}

// Writes the waves of a run to a file, and what GTKWave shows of them to the file of the same name with `.gtkw`. Errors: those of the files;
// `InvalidInput` if a time in steps needs more than 64 bits, or without a step; out of memory.
fn waves_written<R: Files + AllocGlobal>(
    rt: &R,
    path: &str,
    steps: u64,
    core: &Core,
) -> io::Result<()> {
    if steps == 0 {
        return Err(io::Error::from(io::ErrorKind::InvalidInput));
    }
    let mut out = BufWriter::new(rt.alloc(), fs::create(rt, path)?)?;
    write_waves(rt.alloc(), core, steps, &mut out)?;
    out.flush()?;
    let name = path.strip_suffix(".vcd").unwrap_or(path);
    let save = format!(in rt.alloc(); "{name}.gtkw")?;
    let mut out = BufWriter::new(rt.alloc(), fs::create(rt, save.as_str())?)?;
    write_save(rt.alloc(), core, &mut out)?;
    out.flush()
}
