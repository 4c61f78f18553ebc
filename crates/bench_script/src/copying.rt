//! Copies of a script, and a script with another test.

ghost use Rattle.std.specs.Prelude.{◌≡◌, IfOk, IfErr};
ghost use Rattle.script_values.specs.Places.{with_fault};
ghost use Rattle.script_values.specs.Reading.{IsFaultOf};
ghost use Rattle.bench_script.specs.Documents.{test_among};
ghost use Rattle.bench_script.specs.Sound.{IsComponentAt};

use crate::scripts::Script;
use script_tables::{
    ActionSetting, Drain, Probe, Setting, SeverityChange, VerbositySetting, type_among,
};
use script_values::ScriptFault;
use std::alloc::{AllocError, Global};
use uvm_factory::{Kind, Override, TypeId};
use uvm_glob::Name;

impl Script {
    /// Returns an equal script. Errors: out of memory.
    pub fn copy(&self) -> Result<Script, AllocError>
        ensures { IfOk result (λ script. script ≡ self.now) }
    {
        let alloc = *self.types.allocator();
        Ok(Script {
            version: self.version,
            test: self.test,
            time_limit: self.time_limit,
            quit_limit: self.quit_limit,
            runtime: self.runtime,
            types: Vec::from_slice(alloc, self.types.as_slice())?,
            overrides: copied_overrides(alloc, self.overrides.as_slice())?,
            settings: copied_settings(alloc, self.settings.as_slice())?,
            verbosities: copied_verbosities(alloc, self.verbosities.as_slice())?,
            actions: copied_actions(alloc, self.actions.as_slice())?,
            severities: copied_severities(alloc, self.severities.as_slice())?,
            probes: copied_probes(alloc, self.probes.as_slice())?,
            drains: copied_drains(alloc, self.drains.as_slice())?,
        })
    }

    /// Returns a copy of the script whose test is the type with this name. Errors: `UnknownType` if no type of the script has the
    /// name; `WrongKind` if that type is a sequence type; out of memory (`Memory`).
    pub fn with_test(&self, name: &Name) -> Result<Script, ScriptFault>
        ensures ok { IfOk result (λ script.
            (test_among self.now.types (Some name.now) ≡ Ok script.test)
            × (script ≡ record self.now { test = script.test })) }
        ensures err { IfErr result (IsFaultOf (with_fault (test_among self.now.types (Some name.now)))) }
    {
        let Some(test) = type_among(self.types(), name) else {
            return Err(ScriptFault::UnknownType);
        };
        match self.types()[test.place()].1 {
            Kind::Component => Ok(self.with_component(test)?),
            Kind::Sequence => Err(ScriptFault::WrongKind),
        }
    }

    // Returns a copy of the script with another test. Errors: out of memory.
    fn with_component(&self, test: TypeId) -> Result<Script, AllocError>
        requires { IsComponentAt self.now.types (Some test) }
        ensures { IfOk result (λ script. script ≡ record self.now { test = Some test }) }
    {
        let mut script = self.copy()?;
        script.test = Some(test);
        Ok(script)
    }
}

fn copied_overrides(alloc: Global, overrides: &[Override]) -> Result<Vec<Override>, AllocError>
    ensures { IfOk result (λ copied. copied.items ≡ overrides.now) }
{
    let mut copied = Vec::new(alloc);
    for given in overrides {
        copied.push(given.copy()?)?;
    }
    Ok(copied)
}

fn copied_settings(alloc: Global, settings: &[Setting]) -> Result<Vec<Setting>, AllocError>
    ensures { IfOk result (λ copied. copied.items ≡ settings.now) }
{
    let mut copied = Vec::new(alloc);
    for setting in settings {
        copied.push(setting.copy()?)?;
    }
    Ok(copied)
}

fn copied_verbosities(
    alloc: Global,
    settings: &[VerbositySetting],
) -> Result<Vec<VerbositySetting>, AllocError>
    ensures { IfOk result (λ copied. copied.items ≡ settings.now) }
{
    let mut copied = Vec::new(alloc);
    for setting in settings {
        copied.push(setting.copy()?)?;
    }
    Ok(copied)
}

fn copied_actions(
    alloc: Global,
    settings: &[ActionSetting],
) -> Result<Vec<ActionSetting>, AllocError>
    ensures { IfOk result (λ copied. copied.items ≡ settings.now) }
{
    let mut copied = Vec::new(alloc);
    for setting in settings {
        copied.push(setting.copy()?)?;
    }
    Ok(copied)
}

fn copied_severities(
    alloc: Global,
    changes: &[SeverityChange],
) -> Result<Vec<SeverityChange>, AllocError>
    ensures { IfOk result (λ copied. copied.items ≡ changes.now) }
{
    let mut copied = Vec::new(alloc);
    for change in changes {
        copied.push(change.copy()?)?;
    }
    Ok(copied)
}

fn copied_probes(alloc: Global, probes: &[Probe]) -> Result<Vec<Probe>, AllocError>
    ensures { IfOk result (λ copied. copied.items ≡ probes.now) }
{
    let mut copied = Vec::new(alloc);
    for probe in probes {
        copied.push(probe.copy()?)?;
    }
    Ok(copied)
}

fn copied_drains(alloc: Global, drains: &[Drain]) -> Result<Vec<Drain>, AllocError>
    ensures { IfOk result (λ copied. copied.items ≡ drains.now) }
{
    let mut copied = Vec::new(alloc);
    for drain in drains {
        copied.push(drain.copy()?)?;
    }
    Ok(copied)
}
