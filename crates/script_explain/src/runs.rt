//! The explanation of a run.

use crate::effects::push_effects;
use crate::endings::push_ending;
use crate::seats::push_living;
use crate::waits::{push_holders, push_waits};
use bench_core::Core;
use script_facts::{Facts, Page, State};
use script_objects::Answers;
use std::alloc::{AllocError, Global};

/// Appends why a run ended as it did, given its core and the answers of its objects: the last entry, the objections that keep it, the
/// sequences that have not ended, what waits, and what had no effect. Of a run that ran out of memory it appends a line that says so.
/// Errors: out of memory; the text then has the lines that were appended before, and maybe a part of one.
pub fn explain(
    alloc: Global,
    core: &Core,
    answers: &Answers,
    out: &mut String,
) -> Result<(), AllocError> {
    let Some(world) = State::of_core(core) else {
        return out.push_str("Memory ran out, so that the state of the run is not known.\n");
    };
    let facts = Facts::of_run(alloc, core, answers, world)?;
    let mut page = Page::new(alloc);
    push_ending(&facts, &mut page);
    push_holders(&facts, &mut page);
    push_living(&facts, &mut page);
    push_waits(&facts, &mut page);
    push_effects(&facts, &mut page);
    out.push_str(page.text())?;
    if page.has_failed() {
        return Err(AllocError);
    }
    Ok(())
}
