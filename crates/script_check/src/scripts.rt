//! What is wrong with the script of a document.

use crate::findings::{Finding, Level};
use crate::places::Document;
use crate::reasons::{reason_advice, reason_text};
use bench_script::{FaultyScript, Place};
use std::alloc::{AllocError, Global};

// Returns the finding about an error of a script: `PLACE: REASON (script fault NUMBER NAME)`.
pub(crate) fn script_finding(
    alloc: Global,
    document: Document<'_>,
    faulty: &FaultyScript,
) -> Result<Finding, AllocError> {
    let reason = reason_text(alloc, document, faulty)?;
    let label = faulty.reason.fault().label();
    let text = match faulty.place {
        Place::Document => format!(in alloc; "{reason} ({label})")?,
        place => format!(in alloc; "{place}: {reason} ({label})")?,
    };
    Ok(Finding {
        level: Level::Error,
        span: document.span_of(alloc, faulty)?,
        text,
        advice: reason_advice(alloc, document, faulty)?,
    })
}
