//! Runs of a file over counted objects.

use crate::files::benches::{answers_of, bytes_of, script_of};
use crate::files::counted::Counted;
use crate::files::ends::{End, tell};
use bench_run::{CoreFault, Kernel, RunFault, run_kernel};
use bench_script::{Script, read_document};
use rand_core::SeedableRng;
use rand_pcg::Pcg64;
use script_objects::Answers;
use std::alloc::{AllocError, Global};
use std::io::Write;
use std::rc::Rc;
use std::rt::Files;
use test_fuzz_runs::{Counts, Ticket};
use toml::Table;
use uvm_glob::Name;
use uvm_object::Object;

/// Runs a file as `script_bench run --trace` does, over counted objects, and writes the transcript as it grows. When each object is
/// returned and dropped, reports with `tell` how the run ended, also after an error. Returns the exit status of `tell`.
pub fn run_counted<R: Files + AllocGlobal, O: Write, E: Write>(
    rt: &R,
    file: &str,
    out: &mut O,
    err: &mut E,
) -> u8 {
    let Ok(counts) = Counts::new(rt.alloc(), u64::MAX) else {
        return tell(0, 0, End::Memory, err);
    };
    let end = match run_file(rt, file, &counts, out) {
        Ok(()) => End::Over,
        Err(end) => end,
    };
    tell(counts.made(), counts.dropped(), end, err)
}

fn run_file<R: Files + AllocGlobal, O: Write>(
    rt: &R,
    file: &str,
    counts: &Rc<Counts>,
    out: &mut O,
) -> Result<(), End> {
    let bytes = bytes_of(rt, file)?;
    run_bytes(rt.alloc(), bytes.as_slice(), counts, out)
}

fn run_bytes<O: Write>(
    alloc: Global,
    bytes: &[u8],
    counts: &Rc<Counts>,
    out: &mut O,
) -> Result<(), End> {
    let root = read_document(alloc, bytes)?;
    run_table(alloc, &root, counts, out)
}

fn run_table<O: Write>(
    alloc: Global,
    root: &Table,
    counts: &Rc<Counts>,
    out: &mut O,
) -> Result<(), End> {
    let script = script_of(alloc, root)?;
    let answers = answers_of(alloc, root, &script)?;
    run_script(alloc, script, &answers, counts, out)
}

// Runs a script over counted objects. No other function of this module owns a kernel.
fn run_script<O: Write>(
    alloc: Global,
    script: Script,
    answers: &Answers,
    counts: &Rc<Counts>,
    out: &mut O,
) -> Result<(), End> {
    let make = |type_name: &Name| -> Result<Option<Object<Counted<'_>>>, AllocError> {
        make_object(alloc, answers, counts, type_name)
    };
    let mut words = Pcg64::seed_from_u64(1);
    match Kernel::new(alloc, script) {
        Ok(mut kernel) => {
            let ended = run_kernel(alloc, &mut kernel, &mut words, true, &make, out);
            kernel.finish();
            match ended {
                Ok(_) => Ok(()),
                Err(RunFault::Memory) => Err(End::Memory),
                Err(RunFault::LogFull) => Err(End::Full),
                Err(RunFault::Output) => Err(End::Output),
                Err(RunFault::NoTest) => Err(End::Fault),
            }
        }
        Err(CoreFault::NoTest) => Err(End::Fault),
        Err(_) => Err(End::Memory),
    }
}

// Creates a counted object of the type `type_name`. Errors: out of memory.
fn make_object<'a>(
    alloc: Global,
    answers: &'a Answers,
    counts: &Rc<Counts>,
    type_name: &Name,
) -> Result<Option<Object<Counted<'a>>>, AllocError> {
    let ticket = Ticket::new(counts)?;
    let behaviour = Counted::of_type(alloc, answers, ticket, type_name)?;
    Ok(Some(Object::new(*type_name, behaviour)))
}
