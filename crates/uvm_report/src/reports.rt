//! The report server.

ghost use Rattle.std.specs.Prelude.{◌≡◌, ◌≤◌, ◌<◌, ◌^◌, ◌++◌, ℕ, List, IsTrue, IsFalse, IsOk, IfOk, OnOk, OnErr};
ghost use Rattle.uvm_report.specs.Severities.{default_actions};
ghost use Rattle.uvm_report.specs.Counts.{number_of, number_of_id, issued_number, is_counted};
ghost use Rattle.uvm_report.specs.Fates.{chosen_or, is_issued, is_reached};
ghost use Rattle.uvm_report.specs.Commands.{SetVerbosity, SetAction, SetSeverity, SetQuitLimit, Issue};
ghost use Rattle.uvm_report.specs.Observed.{severity_at, level_at, actions_at, limit_of, counts_of, has_room};
ghost use Rattle.uvm_report.specs.Changes.{ruling_at, fate_at, IsAfter, IsNew, IsSame};
ghost use Rattle.uvm_report.specs.Lines.{summary_text};
ghost use Rattle.uvm_report.specs.Plain.{ArePlainLines};

use crate::lines::push_summary;
use crate::messages::{Fate, Report};
use crate::settings::{ReportScope, ScopedSettings, Which};
use crate::severities::{Actions, Severity, verbosity};
use crate::tallies::Tally;
use std::alloc::{AllocError, Global};
use std::marker::Model;
use uvm_glob::{Glob, Name, Path};

/// The report server: its settings, and the number of issued reports (IEEE 1800.2-2020, Clause 6). Contracts see the severity, level and
/// actions chosen at each path for each severity and id, the quit limit, and the counts.
pub struct Reports {
    // The last setting of each kind for each scope and the reports that it names.
    severities: ScopedSettings<Severity>,
    levels: ScopedSettings<u16>,
    actions: ScopedSettings<Actions>,
    // The quit limit; 0 means that there is none.
    quit_limit: u16,
    tally: Tally,
}

// (Written by hand, so that the crates that use a report server need no proof that its fields are dropped.)
impl Drop for Reports {
    fn drop(self) {
        let Reports {
            severities: _,
            levels: _,
            actions: _,
            quit_limit: _,
            tally: _,
        } = self;
    }
}

impl Model for Reports {
    ghost use Rattle.uvm_report.specs.Representation.{Representation};

    ghost Value = { Representation };

    ghost view = { λ r. record {
      severities = r.severities;
      levels = r.levels;
      actions = r.actions;
      limit = r.quit_limit;
      counts = r.tally.counts;
      spare = r.tally.spare;
    } };
}

#[tactic(auto, using(crate::proofs::Given::given), unfolding(crate::specs::Representation::severity_at, crate::specs::Representation::level_at, crate::specs::Representation::actions_at, crate::specs::Representation::limit_of, crate::specs::Representation::counts_of, crate::specs::Representation::has_room))]
impl Reports {
    /// Creates a report server without settings, without a quit limit and without issued reports.
    pub fn new(alloc: Global) -> Reports
        ensures { IsNew result }
    {
        Reports {
            severities: ScopedSettings::new(alloc),
            levels: ScopedSettings::new(alloc),
            actions: ScopedSettings::new(alloc),
            quit_limit: 0,
            tally: Tally::new(alloc),
        }
    }

    /// Sets the verbosity level for the reports that `which` names, at the paths that `scope` matches. Reports with a verbosity above the
    /// level are dropped. If several settings of one class (`Which`) apply to a report, the last one takes precedence. A setting replaces
    /// the one with the same scope and `which`. Errors: out of memory. An error changes nothing.
    pub fn set_verbosity(&mut self, scope: Glob, which: Which, level: u16) -> Result<(), AllocError>
        ensures ok { OnOk result (IsAfter (SetVerbosity scope which level) self.old self.new) }
        ensures err { OnErr result (IsSame self.old self.new) }
        ensures room { (asked : List ℕ) → has_room self.new asked ≡ has_room self.old asked }
    {
        self.levels.add(ReportScope { scope, which }, level)?;
        Ok(())
    }

    /// Sets the actions for the reports that `which` names, at the paths that `scope` matches. If several settings of one class (`Which`)
    /// apply to a report, the last one takes precedence. A setting replaces the one with the same scope and `which`. Errors: out of
    /// memory. An error changes nothing.
    pub fn set_action(
        &mut self,
        scope: Glob,
        which: Which,
        actions: Actions,
    ) -> Result<(), AllocError>
        ensures ok { OnOk result (IsAfter (SetAction scope which actions) self.old self.new) }
        ensures err { OnErr result (IsSame self.old self.new) }
        ensures room { (asked : List ℕ) → has_room self.new asked ≡ has_room self.old asked }
    {
        self.actions.add(ReportScope { scope, which }, actions)?;
        Ok(())
    }

    /// Changes the severity of reports at the paths that `scope` matches: those issued with the severity `from`, and with the id if one is
    /// given. A changed severity is not changed again. Changes with an id take precedence over those without; within each class the last
    /// one takes precedence. A change replaces the one with the same scope, severity and id. Errors: out of memory. An error changes
    /// nothing.
    pub fn set_severity(
        &mut self,
        scope: Glob,
        from: Severity,
        id: Option<Name>,
        to: Severity,
    ) -> Result<(), AllocError>
        ensures ok { OnOk result (IsAfter (SetSeverity scope from id to) self.old self.new) }
        ensures err { OnErr result (IsSame self.old self.new) }
        ensures room { (asked : List ℕ) → has_room self.new asked ≡ has_room self.old asked }
    {
        let which = match id {
            None => Which::Severity(from),
            Some(id) => Which::Both(from, id),
        };
        self.severities.add(ReportScope { scope, which }, to)?;
        Ok(())
    }

    /// Sets the quit limit; 0 means that there is none. The issued report with which the quit count reaches the limit asks for the end of
    /// the run. So does each report issued after it. Allocates no memory.
    pub fn set_quit_limit(&mut self, limit: u16)
        ensures after { IsAfter (SetQuitLimit limit) self.old self.new }
        ensures room { (asked : List ℕ) → has_room self.new asked ≡ has_room self.old asked }
    {
        self.quit_limit = limit;
    }

    /// Reserves capacity for a report with this id: the next `issue` of such a report then allocates no memory. Changes no setting and no
    /// count. Errors: out of memory, only if the id was not counted yet and no capacity is reserved for it.
    pub fn reserve_id(&mut self, id: &Name) -> Result<(), AllocError>
        ensures ok { OnOk result (IsTrue (has_room self.new id.now)) }
        ensures same { IsSame self.old self.new }
        ensures room { IsTrue (has_room self.old id.now) → IsOk result }
    {
        self.tally.reserve(id)
    }

    /// Decides how a report of the component at `path` is handled, and counts it if it is issued. Requires that fewer than 10^18 reports
    /// were issued. The severity is changed first; the level and the actions are those for the changed severity. The report is dropped if
    /// its verbosity is above the level. A report issued as WARNING, ERROR or FATAL has no verbosity and is not dropped. The report is
    /// silent if it has no action. Once the quit count has reached the limit, each issued report asks for the end of the run. Errors: out
    /// of memory, only if the report would be issued, its id was not counted yet, and no capacity was reserved for it. An error changes
    /// nothing.
    #[tactic(auto, using(crate::proofs::Judged::judged), unfolding(crate::specs::Representation::severity_at, crate::specs::Representation::level_at, crate::specs::Representation::actions_at, crate::specs::Representation::limit_of, crate::specs::Representation::counts_of, crate::specs::Representation::has_room, crate::specs::Fates::ruling_by))]
    pub fn issue(&mut self, path: &Path, report: &Report) -> Result<Fate, AllocError>
        requires { issued_number (counts_of self.old) < 10 ^ 18 }
        ensures fate { IfOk result (λ fate. fate ≡ fate_at self.old path.now report.now) }
        ensures ok { OnOk result (IsAfter (Issue path.now report.now) self.old self.new) }
        ensures err { OnErr result (IsSame self.old self.new) }
        ensures issued { OnErr result (IsTrue (is_issued report.now (ruling_at self.old path.now report.now))) }
        ensures first { OnErr result (IsFalse (is_counted (counts_of self.old) report.now.id)) }
        ensures room { IsTrue (has_room self.old report.now.id) → IsOk result }
    {
        let severity = self.severity(path, report.severity, &report.id);
        if report.effective_verbosity() > self.level(path, severity, &report.id) {
            return Ok(Fate::Dropped);
        }
        let actions = self.actions(path, severity, &report.id);
        if actions.is_empty() {
            return Ok(Fate::Silent);
        }
        self.tally.add(severity, &report.id, actions.count)?;
        Ok(Fate::Issued {
            severity,
            display: actions.display,
            exit: actions.exit || self.is_limit_reached(),
        })
    }

    /// Returns the actions for a report of the component at `path`: those for its severity after changes (`get_report_action`, Clause 6).
    /// Allocates no memory.
    #[tactic(auto, unfolding(crate::specs::Representation::severity_at, crate::specs::Representation::actions_at, crate::specs::Fates::ruling_by))]
    pub fn actions_for(&self, path: &Path, report: &Report) -> Actions
        ensures { result ≡ (ruling_at self.now path.now report.now).actions }
    {
        let severity = self.severity(path, report.severity, &report.id);
        self.actions(path, severity, &report.id)
    }

    /// Returns the number of issued reports of a severity, after changes of severity. Allocates no memory.
    pub fn count_of(&self, severity: Severity) -> u64
        ensures value { result ≡ number_of (counts_of self.now) severity }
        ensures most { result ≤ 10 ^ 18 }
    {
        self.tally.of(severity)
    }

    /// Returns the number of issued reports with an id. Allocates no memory.
    pub fn count_of_id(&self, id: &Name) -> u64
        ensures { result ≡ number_of_id (counts_of self.now) id.now }
    {
        self.tally.of_id(id)
    }

    /// Returns the number of issued reports with the action `count`. Allocates no memory.
    pub fn quit_count(&self) -> u64
        ensures { result ≡ (counts_of self.now).quit }
    {
        self.tally.quit()
    }

    /// Appends the summary: the quit count if there is a limit, and the counts by severity and by id. Each of its lines consists of
    /// printable characters and begins neither with `!` nor with `?`. Errors: out of memory. An error appends nothing.
    pub fn summary(&self, out: &mut Vec<u8>) -> Result<(), AllocError>
        ensures ok { OnOk result (out.new.items ≡ out.old.items ++ summary_text (limit_of self.now) (counts_of self.now)) }
        ensures err { OnErr result (out.new.items ≡ out.old.items) }
        ensures plain { OnOk result (ArePlainLines (summary_text (limit_of self.now) (counts_of self.now))) }
    {
        let mut text = Vec::new(*out.allocator());
        push_summary(self.quit_limit, &self.tally, &mut text)?;
        out.extend_from_slice(text.as_slice())
    }

    // Returns the severity of a report after the change that applies to it, if one does.
    fn severity(&self, path: &Path, issued: Severity, id: &Name) -> Severity
        ensures { result ≡ chosen_or issued (severity_at self.now path.now issued id.now) }
    {
        match self.severities.prevailing(path, issued, id) {
            Some(change) => change.value,
            None => issued,
        }
    }

    // Returns the verbosity level: reports with a greater verbosity are dropped.
    fn level(&self, path: &Path, severity: Severity, id: &Name) -> u16
        ensures { result ≡ chosen_or 200 (level_at self.now path.now severity id.now) }
    {
        match self.levels.prevailing(path, severity, id) {
            Some(setting) => setting.value,
            None => verbosity::MEDIUM,
        }
    }

    // Returns the actions for a report.
    fn actions(&self, path: &Path, severity: Severity, id: &Name) -> Actions
        ensures { result ≡ chosen_or (default_actions severity) (actions_at self.now path.now severity id.now) }
    {
        match self.actions.prevailing(path, severity, id) {
            Some(setting) => setting.value,
            None => severity.default_actions(),
        }
    }

    // Returns whether there is a quit limit and the quit count has reached it.
    fn is_limit_reached(&self) -> bool
        ensures { result ≡ is_reached (limit_of self.now) (counts_of self.now).quit }
    {
        self.quit_limit != 0 && self.tally.quit() >= u64::from(self.quit_limit)
    }
}
