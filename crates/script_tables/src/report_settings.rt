//! The settings of a script for reports.

ghost use Rattle.std.specs.Prelude.{◌≡◌, IfOk};

use std::alloc::AllocError;
use uvm_glob::{Glob, Name};
use uvm_report::{Actions, Severity, Which};

/// The verbosity level of reports at the paths that the glob matches (IEEE 1800.2-2020, Clause 6).
#[derive(Drop)]
pub struct VerbositySetting {
    /// The glob of the paths at which the setting applies.
    pub scope: Glob,
    /// The reports to which the setting applies.
    pub which: Which,
    /// The verbosity level: a report with a verbosity above it is dropped.
    pub level: u16,
}

/// The actions for reports at the paths that the glob matches (IEEE 1800.2-2020, Clause 6).
#[derive(Drop)]
pub struct ActionSetting {
    /// The glob of the paths at which the setting applies.
    pub scope: Glob,
    /// The reports to which the setting applies.
    pub which: Which,
    /// The actions for these reports.
    pub actions: Actions,
}

/// A change of the severity of reports at the paths that the glob matches (IEEE 1800.2-2020, Clause 6).
#[derive(Drop)]
pub struct SeverityChange {
    /// The glob of the paths at which the setting applies.
    pub scope: Glob,
    /// The severity with which the reports are issued.
    pub from: Severity,
    /// The id of the reports, or `None` for every id.
    pub id: Option<Name>,
    /// The severity that replaces it.
    pub to: Severity,
}

impl VerbositySetting {
    /// Returns an equal setting. Errors: out of memory.
    pub fn copy(&self) -> Result<VerbositySetting, AllocError>
        ensures { IfOk result (λ setting. setting ≡ self.now) }
    {
        Ok(VerbositySetting {
            scope: self.scope.copy()?,
            which: self.which,
            level: self.level,
        })
    }
}

impl ActionSetting {
    /// Returns an equal setting. Errors: out of memory.
    pub fn copy(&self) -> Result<ActionSetting, AllocError>
        ensures { IfOk result (λ setting. setting ≡ self.now) }
    {
        Ok(ActionSetting {
            scope: self.scope.copy()?,
            which: self.which,
            actions: self.actions,
        })
    }
}

impl SeverityChange {
    /// Returns an equal change. Errors: out of memory.
    pub fn copy(&self) -> Result<SeverityChange, AllocError>
        ensures { IfOk result (λ change. change ≡ self.now) }
    {
        Ok(SeverityChange {
            scope: self.scope.copy()?,
            from: self.from,
            id: self.id,
            to: self.to,
        })
    }
}
