//! Reports, and how they are handled.

ghost use Rattle.std.specs.Prelude.{◌≡◌, ◌++◌, IfOk, OnOk, OnErr};
ghost use Rattle.uvm_report.specs.Fates.{asks_exit, displayed_as, effective_verbosity};
ghost use Rattle.uvm_report.specs.Lines.{report_line};

use crate::severities::Severity;
use crate::texts::Text;
use std::alloc::AllocError;
use uvm_glob::Name;

/// A report (IEEE 1800.2-2020, Clause 6).
#[derive(Drop)]
pub struct Report {
    /// The severity with which the report is issued, before changes.
    pub severity: Severity,
    /// The id of the report, which names its subject.
    pub id: Name,
    /// The message of the report.
    pub text: Text,
    /// The verbosity: the lowest level at which the report is not dropped. It matters only if the report is issued as INFO.
    pub verbosity: u16,
}

/// How a report is handled.
#[derive(Clone, Copy, PartialEq, Eq)]
pub enum Fate {
    /// The report is dropped: its verbosity is above the level.
    Dropped,
    /// The report has no action and is not counted.
    Silent,
    /// The report is issued and counted.
    Issued {
        /// The severity of the report, after changes.
        severity: Severity,
        /// Whether the line of the report is to be displayed.
        display: bool,
        /// Whether the report asks for the end of the run.
        exit: bool,
    },
}

impl Fate {
    /// Returns the severity, after changes, with which the report is displayed, or `None` if it is not displayed.
    pub fn displayed_as(self) -> Option<Severity>
        ensures { result ≡ displayed_as self }
    {
        match self {
            Fate::Issued {
                severity,
                display: true,
                ..
            } => Some(severity),
            _ => None,
        }
    }

    /// Returns whether the report is issued and asks for the end of the run.
    pub fn asks_exit(self) -> bool
        ensures { result ≡ asks_exit self }
    {
        match self {
            Fate::Issued { exit, .. } => exit,
            Fate::Dropped | Fate::Silent => false,
        }
    }
}

impl Report {
    /// Creates an equal report. Errors: out of memory.
    pub fn copy(&self) -> Result<Report, AllocError>
        ensures { IfOk result (λ report. report ≡ self.now) }
    {
        Ok(Report {
            severity: self.severity,
            id: self.id,
            text: self.text.copy()?,
            verbosity: self.verbosity,
        })
    }

    // Returns the verbosity that decides: the report's own if it is issued as INFO, otherwise 0.
    pub(crate) fn effective_verbosity(&self) -> u16
        ensures { result ≡ effective_verbosity self.now }
    {
        if self.severity.is(Severity::Info) {
            self.verbosity
        } else {
            0
        }
    }
}
