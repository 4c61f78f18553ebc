//! Tests of the calls of reports if memory is available, and of the named verbosities. The lemmas on reports, in proofs/, state how
//! a report is handled in each case, and the exact texts.

use std::alloc::{AllocError, Global};
use std::test::Fail;
use uvm_glob::{Glob, Name, Path};
use uvm_report::{Actions, Fate, Report, Reports, Severity, Text, TextFault, Which, verbosity};

const ERRORS: Actions = Actions {
    display: true,
    count: true,
    exit: false,
};

const SUMMARY: &[u8] = b"> --- UVM Report Summary ---
Quit count : 1 of 1
** Report counts by severity
UVM_INFO : 1
UVM_WARNING : 0
UVM_ERROR : 1
UVM_FATAL : 0
** Report counts by id
[E] 2
";

fn report(alloc: Global, severity: Severity, id: Name) -> Result<Report, Fail> {
    Ok(Report {
        severity,
        id,
        text: Text::new(alloc, b"one")?,
        verbosity: verbosity::HIGH,
    })
}

// Returns the fate of a displayed report.
fn displayed(severity: Severity, exit: bool) -> Fate {
    Fate::Issued {
        severity,
        display: true,
        exit,
    }
}

// Sets the verbosity level to HIGH, the actions of errors to display and count, and the quit limit to 1. Changes warnings with the id
// to errors. Reserves capacity for the id.
fn set(alloc: Global, reports: &mut Reports, id: Name) -> Result<(), Fail> {
    let (error, warning) = (Severity::Error, Severity::Warning);
    reports.set_verbosity(everywhere(alloc)?, Which::All, verbosity::HIGH)?;
    reports.set_action(everywhere(alloc)?, Which::Severity(error), ERRORS)?;
    reports.set_severity(everywhere(alloc)?, warning, Some(id), error)?;
    reports.set_quit_limit(1);
    Ok(reports.reserve_id(&id)?)
}

fn everywhere(alloc: Global) -> Result<Glob, Fail> {
    Ok(Glob::new(alloc, b"*")?)
}

// Issues a report with a severity and an id at `uvm_test_top`.
fn issue(alloc: Global, reports: &mut Reports, severity: Severity, id: Name) -> Result<Fate, Fail> {
    let report = report(alloc, severity, id)?;
    issue_at(reports, &Path::parse(alloc, b"uvm_test_top")?, &report)
}

fn issue_at(reports: &mut Reports, path: &Path, report: &Report) -> Result<Fate, Fail> {
    let info = reports.count_of(Severity::Info);
    let warning = reports.count_of(Severity::Warning);
    let error = reports.count_of(Severity::Error);
    let fatal = reports.count_of(Severity::Fatal);
    if info + warning + error + fatal >= 1_000_000_000_000_000_000 {
        return Err(Fail::new("too many reports"));
    }
    Ok(reports.issue(path, report)?)
}

#[test]
fn reports_are_issued_by_the_settings_and_counted(rt: HostRuntime) -> Result<(), Fail> {
    let id = Name::new(b"E")?;
    let mut reports = Reports::new(rt.alloc());
    assert!(rt; are_issued_and_counted(rt.alloc(), &mut reports, id)?);
    Ok(())
}

fn are_issued_and_counted(alloc: Global, reports: &mut Reports, id: Name) -> Result<bool, Fail> {
    set(alloc, reports, id)?;
    let shown = issue(alloc, reports, Severity::Info, id)?;
    let changed = issue(alloc, reports, Severity::Warning, id)?;
    Ok(
        shown == displayed(Severity::Info, false)
            && changed == displayed(Severity::Error, true)
            && are_counted(reports, id)
            && are_summed_up(alloc, reports)?,
    )
}

fn are_counted(reports: &Reports, id: Name) -> bool {
    reports.count_of(Severity::Error) == 1
        && reports.count_of_id(&id) == 2
        && reports.quit_count() == 1
}

fn are_summed_up(alloc: Global, reports: &Reports) -> Result<bool, AllocError> {
    let mut out = b"> ".to_vec(alloc)?;
    reports.summary(&mut out)?;
    Ok(out.as_slice() == SUMMARY)
}

#[test]
fn a_fate_says_what_is_shown_and_whether_the_run_goes_on(rt: HostRuntime) {
    let fate = displayed(Severity::Info, true);
    assert!(rt; fate.displayed_as() == Some(Severity::Info));
    assert!(rt; fate.asks_exit());
}

#[test]
fn named_verbosities_are_those_of_the_standard(rt: HostRuntime) {
    let low = (verbosity::NONE, verbosity::LOW, verbosity::MEDIUM);
    let high = (verbosity::HIGH, verbosity::FULL, verbosity::DEBUG);
    assert!(rt; low == (0, 100, 200));
    assert!(rt; high == (300, 400, 500));
}

#[test]
fn a_report_is_written_with_its_text(rt: HostRuntime) -> Result<(), Fail> {
    let report = report(rt.alloc(), Severity::Error, Name::new(b"E")?)?;
    assert!(rt; is_written(rt.alloc(), &report)?);
    Ok(())
}

// Returns whether the line of a copy of the report is the expected one.
fn is_written(alloc: Global, report: &Report) -> Result<bool, AllocError> {
    is_line(alloc, &report.copy()?)
}

fn is_line(alloc: Global, report: &Report) -> Result<bool, AllocError> {
    let mut out = Vec::new(alloc);
    report.write_line(Severity::Warning, 30, b"uvm_top", &mut out)?;
    Ok(out.as_slice() == b"UVM_WARNING @ 30: uvm_top [E] one\n".as_slice())
}

#[test]
fn a_text_is_refused_at_its_fault(rt: HostRuntime) {
    assert!(rt; Text::new(rt.alloc(), b"one\n").err() == Some(TextFault::BadByte));
}

#[test]
fn a_text_is_copied(rt: HostRuntime) -> Result<(), Fail> {
    assert!(rt; is_copied(&Text::new(rt.alloc(), b"one two")?)?);
    Ok(())
}

fn is_copied(text: &Text) -> Result<bool, AllocError> {
    Ok(text.copy()?.as_bytes() == b"one two".as_slice())
}

#[test]
fn severities_and_what_is_done_with_them_are_told(rt: HostRuntime) {
    assert!(rt; Severity::Warning.name() == "WARNING");
    assert!(rt; Severity::Error.default_actions() == ERRORS);
    assert!(rt; !ERRORS.is_empty());
}
