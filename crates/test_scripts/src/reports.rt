//! The settings of a script for reports.

use crate::put;
use bench_script::Script;
use std::io;
use uvm_report::Which;

/// Writes the settings of a script for reports.
pub fn tell<R: Print>(rt: &R, script: &Script) -> io::Result<()> {
    tell_verbosities(rt, script)?;
    tell_actions(rt, script)?;
    tell_severities(rt, script)
}

fn tell_verbosities<R: Print>(rt: &R, script: &Script) -> io::Result<()> {
    for setting in script.verbosities() {
        put(rt, "verbosity (", &setting.scope)?;
        tell_which(rt, &setting.which)?;
        put(rt, " ", setting.level)?;
        rt.print("\n")?;
    }
    Ok(())
}

fn tell_actions<R: Print>(rt: &R, script: &Script) -> io::Result<()> {
    for setting in script.actions() {
        put(rt, "action (", &setting.scope)?;
        tell_which(rt, &setting.which)?;
        put(rt, " display ", setting.actions.display)?;
        put(rt, " count ", setting.actions.count)?;
        put(rt, " exit ", setting.actions.exit)?;
        rt.print("\n")?;
    }
    Ok(())
}

fn tell_severities<R: Print>(rt: &R, script: &Script) -> io::Result<()> {
    for change in script.severities() {
        put(rt, "severity (", &change.scope)?;
        put(rt, ") ", change.from.name())?;
        if let Some(id) = &change.id {
            put(rt, " ", id)?;
        }
        put(rt, " to ", change.to.name())?;
        rt.print("\n")?;
    }
    Ok(())
}

fn tell_which<R: Print>(rt: &R, which: &Which) -> io::Result<()> {
    match which {
        Which::All => rt.print(") all"),
        Which::Severity(severity) => put(rt, ") ", severity.name()),
        Which::Id(id) => put(rt, ") id ", id),
        Which::Both(severity, id) => {
            put(rt, ") ", severity.name())?;
            put(rt, " ", id)
        }
    }
}
