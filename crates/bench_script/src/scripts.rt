//! The values of a script.

ghost use Rattle.std.specs.Prelude.{◌≡◌, ◌≤◌, [], All, IfOk, length};
ghost use Rattle.uvm_config.specs.Answers.{most_settings};
ghost use Rattle.bench_script.specs.Limits.{most_time};
ghost use Rattle.script_tables.specs.Drains.{CanDrain};
ghost use Rattle.script_tables.specs.Rows.{CanRegister, CanOverride, CanProbe, HasLevelInRange};
ghost use Rattle.bench_script.specs.Sound.{IsComponentAt};

use script_tables::{ActionSetting, Drain, Probe, Setting, SeverityChange, VerbositySetting};
use std::marker::Model;
use uvm_factory::{Kind, Override, TypeId};
use uvm_glob::Name;

/// A script. Contracts see its values, as a `ScriptValue`; a type is its place among the types of the script, from 0.
pub struct Script {
    pub(crate) version: u64,
    pub(crate) test: Option<TypeId>,
    pub(crate) time_limit: u64,
    pub(crate) quit_limit: u16,
    pub(crate) runtime: bool,
    pub(crate) types: Vec<(Name, Kind)>,
    pub(crate) overrides: Vec<Override>,
    pub(crate) settings: Vec<Setting>,
    pub(crate) verbosities: Vec<VerbositySetting>,
    pub(crate) actions: Vec<ActionSetting>,
    pub(crate) severities: Vec<SeverityChange>,
    pub(crate) probes: Vec<Probe>,
    pub(crate) drains: Vec<Drain>,
}

// (Written by hand: crates that use a script then need no proof about the drop of its fields.)
impl Drop for Script {
    fn drop(self) {
        let Script {
            version: _,
            test: _,
            time_limit: _,
            quit_limit: _,
            runtime: _,
            types: _,
            overrides: _,
            settings: _,
            verbosities: _,
            actions: _,
            severities: _,
            probes: _,
            drains: _,
        } = self;
    }
}

impl Model for Script {
    ghost use Rattle.bench_script.specs.Scripts.{ScriptValue};

    ghost Value = { ScriptValue };

    ghost view = { λ s. record {
      version = s.version;
      test = s.test;
      time_limit = s.time_limit;
      quit_limit = s.quit_limit;
      runtime = s.runtime;
      types = s.types.items;
      overrides = s.overrides.items;
      settings = s.settings.items;
      verbosities = s.verbosities.items;
      actions = s.actions.items;
      severities = s.severities.items;
      probes = s.probes.items;
      drains = s.drains.items;
    } };

    ghost use Rattle.bench_script.specs.Sound.{IsSound};

    ghost invariant = { λ s. IsSound (record {
      version = s.version;
      test = s.test;
      time_limit = s.time_limit;
      quit_limit = s.quit_limit;
      runtime = s.runtime;
      types = s.types.items;
      overrides = s.overrides.items;
      settings = s.settings.items;
      verbosities = s.verbosities.items;
      actions = s.actions.items;
      severities = s.severities.items;
      probes = s.probes.items;
      drains = s.drains.items;
    }) };
}

impl Script {
    /// Returns the version of the script, 1 or 2.
    pub fn version(&self) -> u64
        ensures { result ≡ self.now.version }
    {
        self.version
    }

    /// Returns the type of the test, a component type, if the script names one.
    pub fn test(&self) -> Option<TypeId>
        ensures test { result ≡ self.now.test }
        ensures component { IsComponentAt self.now.types self.now.test }
    {
        self.test
    }

    /// Returns the time limit of the script in ticks, at most 10^18.
    pub fn time_limit(&self) -> u64
        ensures limit { result ≡ self.now.time_limit }
        ensures most { result ≤ most_time }
    {
        self.time_limit
    }

    /// Returns the limit of the number of counted reports, at most 65,535; 0 means no limit.
    pub fn quit_limit(&self) -> u16
        ensures { result ≡ self.now.quit_limit }
    {
        self.quit_limit
    }

    /// Returns whether the twelve run-time phases, from pre_reset to post_shutdown, run in parallel with the run phase (IEEE
    /// 1800.2-2020, Clause 9).
    pub fn has_runtime(&self) -> bool
        ensures { result ≡ self.now.runtime }
    {
        self.runtime
    }

    /// Returns the names and the kinds of the types in the order of registration, at most 1,024. Each can be registered after
    /// those before it.
    pub fn types(&self) -> &[(Name, Kind)]
        ensures types { result.now ≡ self.now.types }
        ensures sound { CanRegister [] self.now.types }
    {
        self.types.as_slice()
    }

    /// Returns the overrides in the order in which they are given, each between types of one kind.
    pub fn overrides(&self) -> &[Override]
        ensures overrides { result.now ≡ self.now.overrides }
        ensures sound { All (CanOverride self.now.types) self.now.overrides }
    {
        self.overrides.as_slice()
    }

    /// Returns the settings in the order in which they are given, at most 65,536.
    pub fn settings(&self) -> &[Setting]
        ensures settings { result.now ≡ self.now.settings }
        ensures few { length result.now ≤ most_settings }
    {
        self.settings.as_slice()
    }

    /// Returns the verbosity settings in the order in which they are given, each with a level of at most 10,000.
    pub fn verbosities(&self) -> &[VerbositySetting]
        ensures verbosities { result.now ≡ self.now.verbosities }
        ensures sound { All HasLevelInRange self.now.verbosities }
    {
        self.verbosities.as_slice()
    }

    /// Returns the action settings in the order in which they are given.
    pub fn actions(&self) -> &[ActionSetting]
        ensures { result.now ≡ self.now.actions }
    {
        self.actions.as_slice()
    }

    /// Returns the severity changes in the order in which they are given.
    pub fn severities(&self) -> &[SeverityChange]
        ensures { result.now ≡ self.now.severities }
    {
        self.severities.as_slice()
    }

    /// Returns the probes in the order in which they are given, each of a type of the script.
    pub fn probes(&self) -> &[Probe]
        ensures probes { result.now ≡ self.now.probes }
        ensures sound { All (CanProbe self.now.types) self.now.probes }
    {
        self.probes.as_slice()
    }

    /// Returns the drain times in the order in which they are given, each of a phase that takes time (IEEE 1800.2-2020, 10.5).
    /// Version 1 has none.
    pub fn drains(&self) -> &[Drain]
        ensures drains { result.now ≡ self.now.drains }
        ensures sound { All CanDrain self.now.drains }
    {
        self.drains.as_slice()
    }
}
