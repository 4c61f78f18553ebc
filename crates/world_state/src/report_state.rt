//! The report server of a run, and the results of its reports (IEEE 1800.2-2020, Clause 6).

ghost use Rattle.std.specs.Prelude.{◌≡◌, ◌∷◌, ◌++◌, [], ℕ, List, None, IsTrue, IsOk, OnOk, IfOk, map, reverse};
ghost use Rattle.uvm_report.specs.Commands.{Command, SetVerbosity, SetAction, SetSeverity, SetQuitLimit};
ghost use Rattle.uvm_report.specs.Observed.{has_room};
ghost use Rattle.bench_history.specs.Reports.{script_commands, verbosity_command, action_command, severity_command};
ghost use Rattle.world_state.specs.ReportsMatch.{CanReport, HasSetting, IsReported, IsReportState, KeepsReportState};

use bench_script::{ActionSetting, Script, SeverityChange, VerbositySetting};
use std::alloc::{AllocError, Global};
use uvm_glob::{Glob, Name, Path};
use uvm_report::{Actions, Fate, Report, Reports, Severity, Which, laws};

/// The report server, and the results of its reports (IEEE 1800.2-2020, Clause 6).
pub struct ReportState {
    pub reports: Reports,
    /// Whether a report has asked for exit.
    pub exit_asked: bool,
    /// How the report of the newest entry was handled, if it has one.
    pub newest: Option<Fate>,
}

// Written by hand, so that crates above need no proof of a drop of its fields.
impl Drop for ReportState {
    fn drop(self) {
        let ReportState {
            reports: _,
            exit_asked: _,
            newest: _,
        } = self;
    }
}

impl ReportState {
    // Creates a report server with no setting and no report.
    fn new(alloc: Global) -> ReportState
        ensures { IsReportState [] None result }
    {
        laws::new_gives_nothing();
        ReportState {
            reports: Reports::new(alloc),
            exit_asked: false,
            newest: None,
        }
    }

    /// Issues a report at a path, and records how it was handled. Errors: out of memory, only if no capacity was reserved for the id of the
    /// report.
    pub fn issue(&mut self, path: &Path, report: &Report) -> Result<(), AllocError>
        requires { CanReport self.old }
        ensures ok { OnOk result (IsReported path.now report.now self.old self.new) }
        ensures memory { IsTrue (has_room self.old.reports report.now.id) → IsOk result }
    {
        laws::commands_are_given();
        laws::fates_are_given();
        let fate = self.reports.issue(path, report)?;
        self.exit_asked = fate.asks_exit() || self.exit_asked;
        self.newest = Some(fate);
        Ok(())
    }

    /// Sets the verbosity level of reports within a scope. Errors: out of memory.
    pub fn set_verbosity(&mut self, scope: Glob, which: Which, level: u16) -> Result<(), AllocError>
        ensures { OnOk result (HasSetting (SetVerbosity scope which level) self.old self.new) }
    {
        laws::commands_are_given();
        self.reports.set_verbosity(scope, which, level)?;
        self.newest = None;
        Ok(())
    }

    /// Sets the actions for reports within a scope. Errors: out of memory.
    pub fn set_action(
        &mut self,
        scope: Glob,
        which: Which,
        actions: Actions,
    ) -> Result<(), AllocError>
        ensures { OnOk result (HasSetting (SetAction scope which actions) self.old self.new) }
    {
        laws::commands_are_given();
        self.reports.set_action(scope, which, actions)?;
        self.newest = None;
        Ok(())
    }

    /// Changes a severity within a scope, for all reports or for those with an id. Errors: out of memory.
    pub fn set_severity(
        &mut self,
        scope: Glob,
        from: Severity,
        id: Option<Name>,
        to: Severity,
    ) -> Result<(), AllocError>
        ensures { OnOk result (HasSetting (SetSeverity scope from id to) self.old self.new) }
    {
        laws::commands_are_given();
        self.reports.set_severity(scope, from, id, to)?;
        self.newest = None;
        Ok(())
    }

    // Sets the quit limit.
    fn set_quit_limit(&mut self, limit: u16)
        ensures { HasSetting (SetQuitLimit limit) self.old self.new }
    {
        laws::commands_are_given();
        self.reports.set_quit_limit(limit);
        self.newest = None;
    }

    /// Reserves capacity for a report with an id, and changes nothing else. Errors: out of memory.
    pub fn reserve_id(&mut self, id: &Name) -> Result<(), AllocError>
        ensures room { OnOk result (IsTrue (has_room self.new.reports id.now)) }
        ensures same { KeepsReportState self.old self.new }
    {
        self.reports.reserve_id(id)
    }
}

/// Creates the report server with all report settings of a script. Errors: out of memory.
pub fn given_report_state(alloc: Global, script: &Script) -> Result<ReportState, AllocError>
    ensures { IfOk result (IsReportState (script_commands script.now) None) }
{
    let mut report_state = ReportState::new(alloc);
    report_state.set_quit_limit(script.quit_limit());
    set_verbosities(&mut report_state, script.verbosities())?;
    set_actions(&mut report_state, script.actions())?;
    change_severities(&mut report_state, script.severities())?;
    Ok(report_state)
}

fn set_verbosities(
    report_state: &mut ReportState,
    given: &[VerbositySetting],
) -> Result<(), AllocError>
    ensures { OnOk result ((commands : List Command) → IsReportState commands None report_state.old → IsReportState (reverse (map verbosity_command given.now) ++ commands) None report_state.new) }
{
    for setting in given {
        let scope = setting.scope.copy()?;
        report_state.set_verbosity(scope, setting.which, setting.level)?;
    }
    Ok(())
}

fn set_actions(report_state: &mut ReportState, given: &[ActionSetting]) -> Result<(), AllocError>
    ensures { OnOk result ((commands : List Command) → IsReportState commands None report_state.old → IsReportState (reverse (map action_command given.now) ++ commands) None report_state.new) }
{
    for setting in given {
        let scope = setting.scope.copy()?;
        report_state.set_action(scope, setting.which, setting.actions)?;
    }
    Ok(())
}

fn change_severities(
    report_state: &mut ReportState,
    given: &[SeverityChange],
) -> Result<(), AllocError>
    ensures { OnOk result ((commands : List Command) → IsReportState commands None report_state.old → IsReportState (reverse (map severity_command given.now) ++ commands) None report_state.new) }
{
    for change in given {
        let scope = change.scope.copy()?;
        report_state.set_severity(scope, change.from, change.id, change.to)?;
    }
    Ok(())
}
