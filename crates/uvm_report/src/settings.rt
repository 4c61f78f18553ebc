//! Settings, and their order of precedence.

ghost use Rattle.std.specs.Prelude.{◌≡◌, ℕ, List, [], OnOk, OnErr, nat_lt};
ghost use Rattle.uvm_glob.specs.Paths.{path_text};
ghost use Rattle.uvm_report.specs.ChosenValue.{names, class_of, class_number, after_setting};
ghost use Rattle.uvm_report.specs.Settings.{choice_among};

use crate::severities::Severity;
use indexmap::IndexMap;
use std::alloc::{AllocError, Global};
use std::marker::Model;
use uvm_glob::{Glob, Name, Path};

/// The reports to which a setting applies. Settings of a severity with an id take precedence over those of an id. These take precedence
/// over those of a severity, and these over those of all reports. Within each of these four classes the last setting takes precedence
/// (IEEE 1800.2-2020, Clause 6).
#[derive(Clone, Copy, PartialEq, Eq, Hash)]
pub enum Which {
    /// All reports.
    All,
    /// The reports of a severity.
    Severity(Severity),
    /// The reports with an id.
    Id(Name),
    /// The reports of a severity with an id.
    Both(Severity, Name),
}

// The classes of settings, in their order of precedence.
#[derive(Clone, Copy)]
pub(crate) enum Class {
    SeverityAndId,
    Id,
    Severity,
    All,
}

// The scope of a setting: the reports that `which` names, at the whole paths that `scope` matches.
#[derive(PartialEq, Eq, Hash, Drop)]
pub(crate) struct ReportScope {
    pub scope: Glob,
    pub which: Which,
}

// The class and the value of the setting that takes precedence. Contracts see it as a `ChosenValue`.
#[derive(Drop)]
pub(crate) struct Chosen<T> {
    class: Class,
    pub value: T,
}

impl<T> Model for Chosen<T> {
    ghost use Rattle.uvm_report.specs.ChosenValue.{ChosenValue};

    ghost Value = { ChosenValue T };

    ghost view = { λ c. record { class = c.class; value = c.value } };
}

/// The settings of one kind: the last value for each scope and the reports it names, in the order in which these were last set. Contracts
/// see them newest first.
#[derive(Drop)]
pub(crate) struct ScopedSettings<T> {
    settings: IndexMap<ReportScope, T>,
}

impl<T> Model for ScopedSettings<T> {
    ghost use Rattle.std.specs.Prelude.{List, reverse, map};
    ghost use Rattle.uvm_report.specs.Settings.{Setting};
    ghost use Rattle.uvm_report.specs.ReportScopes.{setting_of};

    ghost Value = { List (Setting T) };

    ghost view = { λ s. reverse (map setting_of s.settings.entries) };
}

impl<T: Copy> ScopedSettings<T> {
    /// Creates a list without settings.
    pub fn new(alloc: Global) -> ScopedSettings<T>
        ensures { result ≡ [] }
    {
        ScopedSettings {
            settings: IndexMap::new(alloc),
        }
    }

    /// Adds a setting as the newest one. It replaces the one with the same scope and the same `which`. Errors: out of memory. An error
    /// changes nothing.
    pub fn add(&mut self, report_scope: ReportScope, value: T) -> Result<(), AllocError>
        ensures choices { OnOk result ((text : List ℕ) (severity : Severity) (id : List ℕ) →
            choice_among self.new text severity id
            ≡ after_setting report_scope.scope report_scope.which value text severity id (choice_among self.old text severity id)) }
        ensures unchanged { OnErr result (self.new ≡ self.old) }
    {
        self.settings
            .insert_before(self.settings.len(), report_scope, value)?;
        Ok(())
    }

    /// Returns the class and value of the setting that takes precedence at a path for a severity and an id, if one applies.
    pub fn prevailing(&self, path: &Path, severity: Severity, id: &Name) -> Option<Chosen<T>>
        ensures { result ≡ choice_among self.now (path_text path.now) severity id.now }
    {
        let mut prevailing = None;
        for (report_scope, value) in self.settings.iter() {
            prevailing = stronger(report_scope, *value, path, severity, id, prevailing);
        }
        prevailing
    }
}

impl Which {
    // Returns whether `self` names the reports of this severity with this id.
    fn names(&self, severity: Severity, id: &Name) -> bool
        ensures { result ≡ names self.now severity id.now }
    {
        match self {
            Which::All => true,
            Which::Severity(named) => named.is(severity),
            Which::Id(named) => named == id,
            Which::Both(named, named_id) => named.is(severity) && named_id == id,
        }
    }

    fn class(&self) -> Class
        ensures { result ≡ class_of self.now }
    {
        match self {
            Which::All => Class::All,
            Which::Severity(_) => Class::Severity,
            Which::Id(_) => Class::Id,
            Which::Both(..) => Class::SeverityAndId,
        }
    }
}

impl Class {
    // Returns whether settings of this class take precedence over those of `other`.
    fn goes_before(self, other: Class) -> bool
        ensures { result ≡ nat_lt (class_number self) (class_number other) }
    {
        (self as u8) < other as u8
    }
}

// Returns the choice after one more setting: the setting, if it applies and its class permits, otherwise the choice before it.
#[tactic(auto, unfolding(crate::specs::ChosenValue::after_setting))]
fn stronger<T: Copy>(
    later: &ReportScope,
    value: T,
    path: &Path,
    severity: Severity,
    id: &Name,
    before: Option<Chosen<T>>,
) -> Option<Chosen<T>>
    ensures { result ≡ after_setting later.now.scope later.now.which value (path_text path.now) severity id.now before }
{
    if !later.which.names(severity, id) || !later.scope.matches(path) {
        return before;
    }
    let class = later.which.class();
    match before {
        Some(earlier) if earlier.class.goes_before(class) => Some(earlier),
        _ => Some(Chosen { class, value }),
    }
}
