//! The commands of the program, on any runtime and with any writers.
ghost use Rattle.std.specs.Prelude.{◌≡◌, ◌⊎◌, IfErr, IfOk, map, OnErr, OnOk};
ghost use Rattle.bus_jobs.specs.Commands.{words_of};
ghost use Rattle.bus_bench.specs.Program.{CameTo, DidJob, DidNothing, GaveText, IsJobDone, IsJobOn, IsReport, IsServed, IsShown, IsTold, IsWork};
ghost use Rattle.bus_jobs.specs.Verdicts.{unflushed};

use bench_script::ScriptFault;
use bus_jobs::{Job, JobFault, Verdict, debug_bench, job, run_bench, tell};
use script_input::{Breakage, read_file};
use std::alloc::Global;
use std::convert::AsStr;
use std::fs::File;
use std::io::Write;
use std::rt::{Env, Files};
use std::{env, io};

// The exit status if the arguments are rejected.
const REFUSED: u8 = 2;

/// Executes the command line and returns the exit status: that of the job's verdict (0 clean, 1 faulty, 2 refused, 3 broken). For help and
/// the version it returns 0, or 3 if the text could not be written. It returns 2 if the arguments are rejected, and 3 if memory runs out.
/// Writes the results to `out`, and errors to `err`.
pub fn run<R: Env + Files + AllocGlobal, O: Write, E: Write>(rt: &R, out: &mut O, err: &mut E) -> u8
    ensures { DidNothing (O.contents out.old) (O.contents out.new) result ⊎ (GaveText (O.contents out.old) (O.contents out.new) result ⊎ DidJob (O.contents out.old) (O.contents out.new) result) }
{
    match words(rt) {
        Ok(words) => serve(rt, words.as_slice(), out, err),
        Err(error) if error.kind() == io::ErrorKind::OutOfMemory => {
            tell(&Verdict::Broken(Breakage::Memory), err)
        }
        Err(_) => {
            let _ = writeln!(err, "bus_bench: the command line is not UTF-8");
            REFUSED
        }
    }
}

/// Executes the arguments of a command line, of which the first is the program's name, and returns the exit status, as `run` does. Writes the
/// results to `out`, and errors to `err`.
pub fn serve<R: Files + AllocGlobal, S: AsStr, O: Write, E: Write>(
    rt: &R,
    words: &[S],
    out: &mut O,
    err: &mut E,
) -> u8
    ensures { IsServed (map S.text words.now) (O.contents out.old) (O.contents out.new) result }
{
    obey(rt, job(rt.alloc(), words), out, err)
}

fn words<R: Env + AllocGlobal>(rt: &R) -> io::Result<Vec<String>> {
    Ok(env::args(rt)?.collect(rt.alloc())?)
}

/// Does the requested job and returns the exit status, as `run` does. Writes the results to `out`, and errors to `err`.
pub fn obey<R: Files + AllocGlobal, O: Write, E: Write>(
    rt: &R,
    asked: Result<Job<'_>, JobFault>,
    out: &mut O,
    err: &mut E,
) -> u8
    ensures job { IfOk asked.entry (λ job. CameTo (words_of job) (O.contents out.old) (O.contents out.new) result) }
    ensures fault { IfErr asked.entry (λ fault. IsTold fault (O.contents out.old) (O.contents out.new) result) }
{
    match asked {
        Ok(job) => {
            let verdict = verdict_on_file(rt, &job, out);
            tell(&verdict, err)
        }
        Err(fault) => refuse(fault, out, err),
    }
}

// Writes why the arguments name no job, or the text that they request, and returns the exit status.
fn refuse<O: Write, E: Write>(fault: JobFault, out: &mut O, err: &mut E) -> u8
    ensures { IsTold fault (O.contents out.old) (O.contents out.new) result }
{
    match fault {
        JobFault::Help(text) | JobFault::Version(text) => show(text.as_str(), out, err),
        JobFault::Refused(error) => {
            let _ = write!(err, "{error}");
            REFUSED
        }
        JobFault::BadName => tell(&Verdict::Refused(ScriptFault::BadName), err),
        JobFault::Memory => tell(&Verdict::Broken(Breakage::Memory), err),
    }
}

// Writes the requested text, and returns the exit status: 0, or 3 if the text could not be written.
fn show<O: Write, E: Write>(text: &str, out: &mut O, err: &mut E) -> u8
    ensures { IsShown text.now (O.contents out.old) (O.contents out.new) result }
{
    if out.write_all(text.as_bytes()).is_ok() && out.flush().is_ok() {
        tell(&Verdict::Clean, err)
    } else {
        tell(&Verdict::Broken(Breakage::Output), err)
    }
}

// Returns the path of the file of a job.
fn file_of<'a>(job: &Job<'a>) -> &'a str {
    match job {
        Job::Debug { file } | Job::Run { file, .. } => file,
    }
}

// Opens the file of a job, does the job on it, and returns the verdict: `Broken(Unread)` if the file cannot be opened.
#[tactic(auto, using(crate::proofs::Reports::done_of))]
fn verdict_on_file<R: Files + AllocGlobal, O: Write>(rt: &R, job: &Job<'_>, out: &mut O) -> Verdict
    ensures { IsJobDone (words_of job.now) (O.contents out.old) (O.contents out.new) result }
{
    match File::open(rt, file_of(job)) {
        Ok(mut file) => do_job(rt.alloc(), job, &mut file, out),
        Err(_) => Verdict::Broken(Breakage::Unread),
    }
}

/// Does a job on the bytes that are read from its file, flushes `out`, and returns the verdict. If the file is not read, the verdict is
/// `Broken`, with nothing written. If the output cannot be flushed, the verdict on a `Clean` or `Faulty` job is `Broken(Output)`. Otherwise
/// it is the verdict on the job.
pub fn do_job<I: io::Read, O: Write>(
    alloc: Global,
    job: &Job<'_>,
    file: &mut I,
    out: &mut O,
) -> Verdict
    ensures { IsJobOn (words_of job.now) (I.remaining file.old) (O.contents out.old) (O.contents out.new) result }
{
    match read_file(alloc, file) {
        Ok(bytes) => report(alloc, job, bytes.as_slice(), out),
        Err(unread) => Verdict::Broken(unread),
    }
}

// Does a job on the bytes of its file, and flushes the output. Returns the verdict, as `do_job` does.
fn report<O: Write>(alloc: Global, job: &Job<'_>, bytes: &[u8], out: &mut O) -> Verdict
    ensures { IsReport (words_of job.now) bytes.now (O.contents out.old) (O.contents out.new) result }
{
    let verdict = work(alloc, job, bytes, out);
    flushed(verdict, out.flush())
}

// Does a job on the bytes of its file, and returns the verdict.
fn work<O: Write>(alloc: Global, job: &Job<'_>, bytes: &[u8], out: &mut O) -> Verdict
    ensures { IsWork (words_of job.now) bytes.now (O.contents out.old) (O.contents out.new) result }
{
    match job {
        Job::Debug { .. } => debug_bench(alloc, bytes, out),
        Job::Run {
            trace,
            seed,
            test,
            ..
        } => run_bench(alloc, bytes, *seed, test.as_ref(), *trace, out),
    }
}

// Returns the verdict on a job after its output was flushed. If the flush failed, `Clean` and `Faulty` become `Broken(Output)`.
fn flushed(verdict: Verdict, flush: io::Result<()>) -> Verdict
    ensures ok { OnOk flush (result ≡ verdict) }
    ensures err { OnErr flush (result ≡ unflushed verdict) }
{
    match (verdict, flush) {
        (Verdict::Clean | Verdict::Faulty, Err(_)) => Verdict::Broken(Breakage::Output),
        (verdict, _) => verdict,
    }
}
