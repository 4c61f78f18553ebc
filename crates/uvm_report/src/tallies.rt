//! The numbers of issued reports.

ghost use Rattle.std.specs.Prelude.{◌≡◌, ◌≤◌, ◌<◌, ◌^◌, IsTrue, IsFalse, IsOk, OnOk, OnErr, [], nat_eq, unwrap_or, sum_by};
ghost use Rattle.std.specs.Cmp.Lexicographic.{pointwise};
ghost use Rattle.indexmap.specs.IndexMap.{get, spare, ContainsKey};
ghost use Rattle.uvm_report.specs.Counts.{no_counts, number_of, number_of_id, issued_number, is_counted, can_count, with_id, with_report};

use crate::severities::Severity;
use indexmap::IndexMap;
use std::alloc::{AllocError, Global};
use std::marker::Model;
use uvm_glob::Name;

// The numbers of issued reports. Contracts see them as `Counts`, together with the number of further ids that can be counted without an
// allocation.
#[derive(Drop)]
pub(crate) struct Tally {
    info: u64,
    warning: u64,
    error: u64,
    fatal: u64,
    // The number of reports of each id, in the order in which the ids were first counted.
    ids: IndexMap<Name, u64>,
    quit: u64,
}

impl Model for Tally {
    ghost use Rattle.std.specs.Prelude.{◌+◌, ◌≤◌, ◌^◌};
    ghost use Rattle.indexmap.specs.IndexMap.{spare};
    ghost use Rattle.uvm_report.specs.Counts.{Tallied, Agree};

    ghost Value = { Tallied };

    ghost view = { λ t. record {
      counts = record { info = t.info; warning = t.warning; error = t.error; fatal = t.fatal; ids = t.ids.entries; quit = t.quit };
      spare = spare t.ids;
    } };

    ghost invariant = { λ t. Agree (record { info = t.info; warning = t.warning; error = t.error; fatal = t.fatal; ids = t.ids.entries; quit = t.quit })
        × (t.info + t.warning + t.error + t.fatal ≤ 10 ^ 18) };
}

impl Tally {
    // Creates a tally without reports.
    pub fn new(alloc: Global) -> Tally
        ensures { result.counts ≡ no_counts }
    {
        Tally {
            info: 0,
            warning: 0,
            error: 0,
            fatal: 0,
            ids: IndexMap::new(alloc),
            quit: 0,
        }
    }

    // Counts one more report. Errors: out of memory, only if the id was not counted yet and no capacity is reserved for it.
    #[tactic(auto, unfolding(crate::specs::Counts::with_report))]
    pub fn add(&mut self, severity: Severity, id: &Name, count: bool) -> Result<(), AllocError>
        requires { issued_number self.old.counts < 10 ^ 18 }
        ensures ok { OnOk result (self.new.counts ≡ with_report severity id.now count self.old.counts) }
        ensures err { OnErr result (self.new.counts ≡ self.old.counts) }
        ensures first { OnErr result (IsFalse (is_counted self.old.counts id.now)) }
        ensures room { IsTrue (can_count self.old.counts self.old.spare id.now) → IsOk result }
    {
        add_id(&mut self.ids, id)?;
        match severity {
            Severity::Info => self.info += 1,
            Severity::Warning => self.warning += 1,
            Severity::Error => self.error += 1,
            Severity::Fatal => self.fatal += 1,
        }
        self.quit += u64::from(count);
        Ok(())
    }

    // Reserves capacity for counting an id. Errors: out of memory, only if the id was not counted yet and no capacity is reserved for it.
    pub fn reserve(&mut self, id: &Name) -> Result<(), AllocError>
        ensures ok { OnOk result (IsTrue (can_count self.new.counts self.new.spare id.now)) }
        ensures counts { self.new.counts ≡ self.old.counts }
        ensures room { IsTrue (can_count self.old.counts self.old.spare id.now) → IsOk result }
    {
        if self.ids.contains_key(id) {
            return Ok(());
        }
        self.ids.reserve(1)
    }

    // Returns the number of issued reports of a severity.
    pub fn of(&self, severity: Severity) -> u64
        ensures value { result ≡ number_of self.now.counts severity }
        ensures most { result ≤ 10 ^ 18 }
    {
        match severity {
            Severity::Info => self.info,
            Severity::Warning => self.warning,
            Severity::Error => self.error,
            Severity::Fatal => self.fatal,
        }
    }

    // Returns the number of issued reports with an id.
    pub fn of_id(&self, id: &Name) -> u64
        ensures { result ≡ number_of_id self.now.counts id.now }
    {
        self.ids.get(id).copied().unwrap_or(0)
    }

    // Returns the number of issued reports with the action `count`.
    pub fn quit(&self) -> u64
        ensures { result ≡ self.now.counts.quit }
    {
        self.quit
    }

    // Returns the ids with their numbers, in the order in which the ids were first counted.
    pub fn ids(&self) -> &IndexMap<Name, u64>
        ensures { result.now.entries ≡ self.now.counts.ids }
    {
        &self.ids
    }
}

// Counts one more report with an id. Errors: out of memory, only if the id is new and there is no capacity for it.
fn add_id(ids: &mut IndexMap<Name, u64>, id: &Name) -> Result<(), AllocError>
    requires { sum_by (λ counted. counted.1) ids.old.entries < 10 ^ 18 }
    ensures ok { OnOk result (ids.new.entries ≡ with_id id.now ids.old.entries) }
    ensures err { OnErr result (ids.new.entries ≡ ids.old.entries) }
    ensures absent { OnErr result (get (pointwise nat_eq) ids.old id.now ≡ None) }
    ensures room { 0 < spare ids.old → IsOk result }
{
    let number = ids.get(id).copied().unwrap_or(0);
    ids.insert(*id, number + 1)?;
    Ok(())
}
