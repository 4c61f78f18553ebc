//! Severities, actions and verbosities.

ghost use Rattle.std.specs.Prelude.{◌≡◌};
ghost use Rattle.uvm_report.specs.Severities.{severity_name, same_severity, default_actions, is_empty};

use std::fmt;

/// The severity of a report (IEEE 1800.2-2020, Clause 6), from the lowest to the highest.
#[derive(Clone, Copy, PartialEq, Eq, Hash)]
pub enum Severity {
    /// Information. Only reports of this severity have a verbosity.
    Info,
    /// A possible problem.
    Warning,
    /// A problem.
    Error,
    /// A problem after which the run cannot continue.
    Fatal,
}

/// The set of actions that are performed for a report (IEEE 1800.2-2020, Clause 6).
#[derive(Clone, Copy, PartialEq, Eq)]
pub struct Actions {
    /// Whether the line of the report is displayed.
    pub display: bool,
    /// Whether the report is counted in the quit count.
    pub count: bool,
    /// Whether the report ends the run.
    pub exit: bool,
}

/// The named verbosities of reports, which are also the named verbosity levels (IEEE 1800.2-2020, Clause 6). A report whose verbosity is
/// above the level is dropped.
pub mod verbosity {
    /// The verbosity of reports that are issued at every level.
    pub const NONE: u16 = 0;
    /// The verbosity of reports that are issued at the level LOW or above.
    pub const LOW: u16 = 100;
    /// The verbosity of reports that are issued at the level MEDIUM or above. MEDIUM is the default level.
    pub const MEDIUM: u16 = 200;
    /// The verbosity of reports that are issued at the level HIGH or above.
    pub const HIGH: u16 = 300;
    /// The verbosity of reports that are issued at the level FULL or above.
    pub const FULL: u16 = 400;
    /// The verbosity of reports that are issued at the level DEBUG or above.
    pub const DEBUG: u16 = 500;
}

impl Severity {
    /// All severities, from the lowest to the highest.
    pub const ALL: [Severity; 4] = [
        Severity::Info,
        Severity::Warning,
        Severity::Error,
        Severity::Fatal,
    ];

    /// Returns the name of the severity without its prefix, for example `ERROR`.
    pub fn name(self) -> &'static str
        ensures { result.now ≡ severity_name self }
    {
        match self {
            Severity::Info => "INFO",
            Severity::Warning => "WARNING",
            Severity::Error => "ERROR",
            Severity::Fatal => "FATAL",
        }
    }

    /// Returns the default actions of this severity. All reports are displayed; in addition an ERROR is counted in the quit count, and a
    /// FATAL ends the run.
    pub fn default_actions(self) -> Actions
        ensures { result ≡ default_actions self }
    {
        Actions {
            display: true,
            count: self == Severity::Error,
            exit: self == Severity::Fatal,
        }
    }

    // Returns whether the two severities are the same.
    pub(crate) fn is(self, other: Severity) -> bool
        ensures { result ≡ same_severity self other }
    {
        self as u8 == other as u8
    }
}

/// The severity with the standard's prefix, for example `UVM_ERROR`.
impl fmt::Display for Severity {
    ghost use Rattle.std.specs.Prelude.{Some};
    ghost use Rattle.uvm_report.specs.Severities.{severity_text};

    ghost output = { λ severity. Some (severity_text severity) };

    fn fmt<W: fmt::Write>(&self, f: &mut fmt::Formatter<W>) -> fmt::Result {
        f.write_str("UVM_")?;
        f.write_str(self.name())
    }
}

impl Actions {
    /// Returns whether the set has no action. A report without an action is not counted.
    pub fn is_empty(self) -> bool
        ensures { result ≡ is_empty self }
    {
        !(self.display || self.count || self.exit)
    }
}
