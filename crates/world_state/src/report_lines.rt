//! The transcript lines of reports (IEEE 1800.2-2020, Clause 6).

ghost use Rattle.std.specs.Prelude.{◌≡◌, ◌≢◌, ◌++◌, [], OnOk, OnErr};
ghost use Rattle.uvm_glob.specs.Printed.{IsPrinted};
ghost use Rattle.uvm_report.specs.Plain.{IsLineAtMost, IsPlainLine};
ghost use Rattle.world_state.specs.ReportLines.{act_line, line_at, note_line, source_at};

use std::alloc::{AllocError, Global};
use uvm_object::{Act, Fatal, Outcome, Who, shown_path, source_of};
use uvm_report::{Report, Severity};
use uvm_sequences::Sequences;
use uvm_tree::{NodeId, Tree};

/// What the line of a report shows in addition to the report: the severity under which it is displayed and the current time in ticks. The tree
/// and the sequences give the text of its source.
#[derive(Clone, Copy)]
pub struct ReportSite<'a> {
    pub alloc: Global,
    pub severity: Severity,
    pub time: u64,
    pub tree: &'a Tree,
    pub sequences: &'a Sequences,
}

impl ReportSite<'_> {
    /// Appends the transcript line of the report of an action that `who` performed; appends nothing if the outcome has no report.
    /// Errors: out of memory, only if there is a line to append. An error appends nothing.
    #[tactic(auto, using(crate::proofs::Shown::plain))]
    pub fn push_stored_act(
        &self,
        who: &Who,
        outcome: &Outcome,
        act: &Act,
        out: &mut Vec<u8>,
    ) -> Result<(), AllocError>
        ensures ok { OnOk result (out.new.items ≡ out.old.items ++ act_line self.now who.now outcome.now act.now) }
        ensures err { OnErr result (out.new.items ≡ out.old.items) }
        ensures plain { OnOk result (IsLineAtMost (act_line self.now who.now outcome.now act.now)) }
        ensures some { OnErr result (act_line self.now who.now outcome.now act.now ≢ []) }
    {
        match (outcome, act) {
            (Outcome::Refused(fatal), _) => self.push_own(who, &fatal.report(self.alloc)?, out),
            (Outcome::Done, Act::Report { report }) => self.push_own(who, report, out),
            _ => Ok(()),
        }
    }

    /// Appends the transcript line of the report of a note at a node. Errors: out of memory. An error appends nothing.
    #[tactic(auto, using(crate::proofs::Shown::line_lost))]
    pub fn push_note(
        &self,
        fatal: &Fatal,
        node: NodeId,
        out: &mut Vec<u8>,
    ) -> Result<(), AllocError>
        ensures ok { OnOk result (out.new.items ≡ out.old.items ++ note_line self.now fatal.now node) }
        ensures err { OnErr result (out.new.items ≡ out.old.items) }
        ensures plain { OnOk result (IsPlainLine (note_line self.now fatal.now node)) }
        ensures some { OnErr result (note_line self.now fatal.now node ≢ []) }
    {
        let source = shown_path(node, self.tree);
        self.push_line(source, &fatal.report(self.alloc)?, out)
    }

    // Appends the line of a report whose source is `who`. Errors: out of memory. An error appends nothing.
    fn push_own(&self, who: &Who, report: &Report, out: &mut Vec<u8>) -> Result<(), AllocError>
        ensures ok { OnOk result (out.new.items ≡ out.old.items ++ line_at self.now (source_at self.now who.now) report.now) }
        ensures err { OnErr result (out.new.items ≡ out.old.items) }
        ensures plain { OnOk result (IsPlainLine (line_at self.now (source_at self.now who.now) report.now)) }
    {
        let source = source_of(self.alloc, who, self.tree, self.sequences)?;
        self.push_line(source.as_slice(), report, out)
    }

    // Appends the line of a report from a source. Errors: out of memory. An error appends nothing.
    fn push_line(&self, source: &[u8], report: &Report, out: &mut Vec<u8>) -> Result<(), AllocError>
        ensures ok { OnOk result (out.new.items ≡ out.old.items ++ line_at self.now source.now report.now) }
        ensures err { OnErr result (out.new.items ≡ out.old.items) }
        ensures plain { IsPrinted source.now → OnOk result (IsPlainLine (line_at self.now source.now report.now)) }
    {
        report.write_line(self.severity, self.time, source, out)
    }
}
