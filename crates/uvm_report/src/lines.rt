//! The line of a report, and the summary.

ghost use Rattle.std.specs.Prelude.{◌≡◌, ◌++◌, ◌∷◌, OnOk, OnErr};
ghost use Rattle.std.specs.List.{flat_map};
ghost use Rattle.std.specs.Fmt.{decimal};
ghost use Rattle.uvm_report.specs.Severities.{severity_text};
ghost use Rattle.uvm_glob.specs.Printed.{IsPrinted};
ghost use Rattle.uvm_report.specs.Lines.{report_line, severity_line, id_line, limit_line, severities, summary_text};
ghost use Rattle.uvm_report.specs.Plain.{ArePlainLines, IsPlainLine};

use crate::messages::Report;
use crate::severities::Severity;
use crate::tallies::Tally;
use indexmap::IndexMap;
use std::alloc::AllocError;
use uvm_glob::Name;
use uvm_glob::laws::numbers_are_printed;

impl Report {
    /// Appends the line of the report, with its newline, for example `UVM_ERROR @ 30: uvm_test_top [ID] TEXT`. `severity` is the changed
    /// severity, `time` is in ticks, and `source` is the text of the report's source. If `source` consists of printable characters, so
    /// does the line, which then is a single one, and begins neither with `!` nor with `?`. Errors: out of memory. An error appends nothing.
    #[tactic(auto, using(crate::proofs::PlainLines::report_plain), unfolding(crate::specs::Lines::report_line))]
    pub fn write_line(
        &self,
        severity: Severity,
        time: u64,
        source: &[u8],
        out: &mut Vec<u8>,
    ) -> Result<(), AllocError>
        ensures ok { OnOk result (out.new.items ≡ out.old.items ++ report_line severity time source.now self.now.id self.now.text) }
        ensures err { OnErr result (out.new.items ≡ out.old.items) }
        ensures plain { IsPrinted source.now → OnOk result (IsPlainLine (report_line severity time source.now self.now.id self.now.text)) }
    {
        let mut line = Vec::new(*out.allocator());
        push_severity(severity, &mut line)?;
        line.extend_from_slice(b" @ ")?;
        push_number(time, &mut line)?;
        line.extend_from_slice(b": ")?;
        line.extend_from_slice(source)?;
        line.extend_from_slice(b" [")?;
        line.extend_from_slice(self.id.as_bytes())?;
        line.extend_from_slice(b"] ")?;
        line.extend_from_slice(self.text.as_bytes())?;
        line.push(b'\n')?;
        out.extend_from_slice(line.as_slice())
    }
}

// Appends the summary.
#[tactic(auto, using(crate::proofs::PlainLines::summary_plain), unfolding(crate::specs::Lines::summary_text))]
pub(crate) fn push_summary(
    quit_limit: u16,
    tally: &Tally,
    text: &mut Vec<u8>,
) -> Result<(), AllocError>
    ensures text { OnOk result (text.new.items ≡ text.old.items ++ summary_text quit_limit tally.now.counts) }
    ensures plain { OnOk result (ArePlainLines (summary_text quit_limit tally.now.counts)) }
{
    text.extend_from_slice(b"--- UVM Report Summary ---\n")?;
    push_limit(quit_limit, tally.quit(), text)?;
    text.extend_from_slice(b"** Report counts by severity\n")?;
    push_severity_counts(&Severity::ALL, tally, text)?;
    text.extend_from_slice(b"** Report counts by id\n")?;
    push_id_counts(tally.ids(), text)?;
    Ok(())
}

// Appends the line with the quit count and the limit, if there is a limit.
#[tactic(auto, using(crate::proofs::PlainLines::limit_plain), unfolding(crate::specs::Lines::limit_line))]
fn push_limit(limit: u16, quit: u64, text: &mut Vec<u8>) -> Result<(), AllocError>
    ensures text { OnOk result (text.new.items ≡ text.old.items ++ limit_line limit quit) }
    ensures plain { OnOk result (ArePlainLines (limit_line limit quit)) }
{
    if limit == 0 {
        return Ok(());
    }
    text.extend_from_slice(b"Quit count : ")?;
    push_number(quit, text)?;
    text.extend_from_slice(b" of ")?;
    push_number(u64::from(limit), text)?;
    text.push(b'\n')?;
    Ok(())
}

fn push_severity_counts(
    severities: &[Severity],
    tally: &Tally,
    text: &mut Vec<u8>,
) -> Result<(), AllocError>
    ensures text { OnOk result (text.new.items ≡ text.old.items ++ flat_map (severity_line tally.now.counts) severities.now) }
    ensures plain { OnOk result (ArePlainLines (flat_map (severity_line tally.now.counts) severities.now)) }
{
    for severity in severities {
        push_severity_count(*severity, tally, text)?;
    }
    Ok(())
}

#[tactic(auto, using(crate::proofs::PlainLines::severity_plain), unfolding(crate::specs::Lines::severity_line))]
fn push_severity_count(
    severity: Severity,
    tally: &Tally,
    text: &mut Vec<u8>,
) -> Result<(), AllocError>
    ensures text { OnOk result (text.new.items ≡ text.old.items ++ severity_line tally.now.counts severity) }
    ensures plain { OnOk result (ArePlainLines (severity_line tally.now.counts severity)) }
{
    push_severity(severity, text)?;
    text.extend_from_slice(b" : ")?;
    push_number(tally.of(severity), text)?;
    text.push(b'\n')?;
    Ok(())
}

fn push_id_counts(ids: &IndexMap<Name, u64>, text: &mut Vec<u8>) -> Result<(), AllocError>
    ensures text { OnOk result (text.new.items ≡ text.old.items ++ flat_map id_line ids.now.entries) }
    ensures plain { OnOk result (ArePlainLines (flat_map id_line ids.now.entries)) }
{
    for (id, number) in ids.iter() {
        push_id_count(id, *number, text)?;
    }
    Ok(())
}

#[tactic(auto, using(crate::proofs::PlainLines::id_plain), unfolding(crate::specs::Lines::id_line))]
fn push_id_count(id: &Name, number: u64, text: &mut Vec<u8>) -> Result<(), AllocError>
    ensures text { OnOk result (text.new.items ≡ text.old.items ++ id_line (id.now, number)) }
    ensures plain { OnOk result (ArePlainLines (id_line (id.now, number))) }
{
    text.push(b'[')?;
    text.extend_from_slice(id.as_bytes())?;
    text.extend_from_slice(b"] ")?;
    push_number(number, text)?;
    text.push(b'\n')?;
    Ok(())
}

fn push_severity(severity: Severity, text: &mut Vec<u8>) -> Result<(), AllocError>
    ensures { OnOk result (text.new.items ≡ text.old.items ++ severity_text severity) }
{
    text.extend_from_slice(b"UVM_")?;
    text.extend_from_slice(severity.name().as_bytes())
}

fn push_number(n: u64, text: &mut Vec<u8>) -> Result<(), AllocError>
    ensures text { OnOk result (text.new.items ≡ text.old.items ++ decimal n) }
    ensures printed { IsPrinted (decimal n) }
{
    numbers_are_printed();
    let digits = n.to_string(*text.allocator())?;
    text.extend_from_slice(digits.as_bytes())
}
