//! Reads scripts, each ended by a line `---`, and writes each with its result: its fault, or what it contains. A request and a line `===`
//! may precede a script: `copy` reads a copy of the script, and `test NAME` replaces its test.
#![tactic(auto)]

mod reports;

use bench_script::{Script, ScriptFault};
use std::alloc::Global;
use std::fmt::Display;
use std::io;
use uvm_factory::{Kind, Override, TypeId};
use uvm_glob::Name;

fn main(rt: HostRuntime) -> io::Result<()> {
    let text = io::read_to_string(rt.alloc(), rt.reader())?;
    tell_all(&rt, text.as_str())
}

fn tell_all<R: Print + AllocGlobal>(rt: &R, text: &str) -> io::Result<()> {
    for row in text.split_terminator("---\n") {
        tell_row(rt, row)?;
    }
    Ok(())
}

// Writes a script and its result.
fn tell_row<R: Print + AllocGlobal>(rt: &R, row: &str) -> io::Result<()> {
    rt.print(row)?;
    tell_read(rt, read_row(rt.alloc(), row))?;
    rt.println("---")
}

fn read_row(alloc: Global, row: &str) -> Result<Script, ScriptFault> {
    match row.split_once("===\n") {
        Some((asked, text)) => ask(asked, &bench_script::read(alloc, text.as_bytes())?),
        None => bench_script::read(alloc, row.as_bytes()),
    }
}

// Returns a copy of the script, or the script with another test.
fn ask(asked: &str, script: &Script) -> Result<Script, ScriptFault> {
    match asked.trim_end().split_once(' ') {
        Some((_, name)) => match Name::new(name.as_bytes()) {
            Ok(name) => script.with_test(&name),
            Err(_) => Err(ScriptFault::BadName),
        },
        None => Ok(script.copy()?),
    }
}

fn tell_read<R: Print + AllocGlobal>(
    rt: &R,
    script: Result<Script, ScriptFault>,
) -> io::Result<()> {
    match script {
        Ok(script) => tell_script(rt, &script),
        Err(fault) => rt.println(fault.label()),
    }
}

// Writes what a script contains. A type is named in a line of its own; elsewhere its place is written, counted from 0.
fn tell_script<R: Print>(rt: &R, script: &Script) -> io::Result<()> {
    tell_test(rt, script.test())?;
    put(rt, "\ntime limit ", script.time_limit())?;
    put(rt, "\nquit limit ", script.quit_limit())?;
    rt.print("\n")?;
    if script.has_runtime() {
        rt.println("run-time phases")?;
    }
    if script.version() > 1 {
        put(rt, "version ", script.version())?;
        rt.print("\n")?;
    }
    tell_types(rt, script)?;
    tell_overrides(rt, script)?;
    tell_settings(rt, script)?;
    reports::tell(rt, script)?;
    tell_probes(rt, script)?;
    tell_drains(rt, script)
}

// Writes a value after some text.
fn put<R: Print, T: Display + Drop>(rt: &R, words: &str, value: T) -> io::Result<()> {
    rt.print(words)?;
    rt.print(value)
}

fn tell_test<R: Print>(rt: &R, test: Option<TypeId>) -> io::Result<()> {
    match test {
        Some(test) => put(rt, "test ", test.place()),
        None => rt.print("no test"),
    }
}

fn tell_types<R: Print>(rt: &R, script: &Script) -> io::Result<()> {
    for (name, kind) in script.types() {
        put(rt, "type ", name)?;
        rt.println(match kind {
            Kind::Component => " component",
            Kind::Sequence => " sequence",
        })?;
    }
    Ok(())
}

fn tell_probes<R: Print>(rt: &R, script: &Script) -> io::Result<()> {
    for probe in script.probes() {
        put(rt, "probe ", probe.type_id.place())?;
        put(rt, " at (", &probe.path)?;
        rt.println(")")?;
    }
    Ok(())
}

fn tell_drains<R: Print>(rt: &R, script: &Script) -> io::Result<()> {
    for drain in script.drains() {
        put(rt, "drain (", &drain.path)?;
        put(rt, ") in ", drain.phase.name())?;
        put(rt, " ", drain.ticks)?;
        rt.print("\n")?;
    }
    Ok(())
}

fn tell_overrides<R: Print>(rt: &R, script: &Script) -> io::Result<()> {
    for given in script.overrides() {
        tell_override(rt, given)?;
        rt.print("\n")?;
    }
    Ok(())
}

fn tell_override<R: Print>(rt: &R, given: &Override) -> io::Result<()> {
    match given {
        Override::Instance {
            original,
            new,
            scope,
        } => {
            tell_types_of(rt, *original, *new)?;
            put(rt, " at (", scope)?;
            rt.print(")")
        }
        Override::Whole {
            original,
            new,
            replace,
        } => {
            tell_types_of(rt, *original, *new)?;
            put(rt, " replace ", *replace)
        }
    }
}

fn tell_types_of<R: Print>(rt: &R, original: TypeId, new: TypeId) -> io::Result<()> {
    put(rt, "override ", original.place())?;
    put(rt, " ", new.place())
}

fn tell_settings<R: Print>(rt: &R, script: &Script) -> io::Result<()> {
    for setting in script.settings() {
        put(rt, "set (", &setting.scope)?;
        put(rt, ") ", &setting.field)?;
        put(rt, " ", setting.value)?;
        rt.print("\n")?;
    }
    Ok(())
}
