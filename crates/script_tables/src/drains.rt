//! The drain times of a script (IEEE 1800.2-2020, 10.5).

ghost use Rattle.std.specs.Prelude.{◌≡◌, ◌≢◌, ◌≤◌, Ok, Err, MatchResult, IfOk, IfSome, All, true};
ghost use Rattle.toml.specs.View.{view, table_view};
ghost use Rattle.uvm_phase.specs.Phases.{is_task};
ghost use Rattle.script_values.specs.Reading.{IsRow};
ghost use Rattle.script_tables.specs.Drains.{CanDrain, drain_row, drains_in, task_in, task_named};

use script_values::keys::{elements, required, row_of};
use script_values::values::{number, text};
use script_values::{
    Column, FaultyRow, FaultyScript, Reason, TableArray, in_column, in_row, path_at,
};
use std::alloc::{AllocError, Global};
use toml::{Table, Value};
use uvm_glob::Path;
use uvm_phase::{MAX_TICKS, Phase};

/// The drain time of the component at a path, in a phase that takes time.
#[derive(Drop)]
pub struct Drain {
    /// The path of the component.
    pub path: Path,
    /// The phase: the run phase or a run-time phase.
    pub phase: Phase,
    /// The drain time in ticks, at most 10^15.
    pub ticks: u64,
}

impl Drain {
    /// Returns an equal drain time. Errors: out of memory.
    pub fn copy(&self) -> Result<Drain, AllocError>
        ensures { IfOk result (λ drain. drain ≡ self.now) }
    {
        Ok(Drain {
            path: self.path.copy()?,
            phase: self.phase,
            ticks: self.ticks,
        })
    }
}

/// Reads the drain times from the array `drain` of a document, row by row. Errors: `NotArray` if the value of the key is not an
/// array; the first error of a row; out of memory.
pub fn read_drains(alloc: Global, root: &Table) -> Result<Vec<Drain>, FaultyScript>
    ensures sound { IfOk result (λ rows. All CanDrain rows.items) }
    ensures rows { MatchResult result
        (λ rows. drains_in (table_view root.now) ≡ Ok rows.items)
        (λ faulty. faulty.reason ≢ Reason.Memory → drains_in (table_view root.now) ≡ Err faulty) }
{
    let mut rows = Vec::new(alloc);
    for element in elements(root, TableArray::Drain)? {
        let read = drain_row(alloc, element);
        rows.push(in_row(read, TableArray::Drain, rows.len())?)?;
    }
    Ok(rows)
}

#[tactic(auto, unfolding(crate::specs::Drains::CanDrain))]
fn drain_row(alloc: Global, element: &Value) -> Result<Drain, FaultyRow>
    ensures row { IsRow (drain_row (view element.now)) result }
    ensures sound { IfOk result CanDrain }
{
    let table = row_of(element, TableArray::Drain)?;
    let path = path_at(alloc, table, Column::Path)?;
    let phase = in_column(task(required(table, Column::Phase)?), Column::Phase)?;
    let ticks = in_column(
        number(required(table, Column::Ticks)?, MAX_TICKS),
        Column::Ticks,
    )?;
    Ok(Drain { path, phase, ticks })
}

// Returns the phase that a value names, which takes time. Errors: `NotString` if the value is not a text; `NotTaskPhase` if
// the text names no such phase.
fn task(value: &Value) -> Result<Phase, Reason>
    ensures phase { result ≡ task_in (view value.now) }
    ensures task { IfOk result (λ phase. is_task phase ≡ true) }
{
    task_named(text(value)?).ok_or(Reason::NotTaskPhase)
}

fn task_named(word: &str) -> Option<Phase>
    ensures phase { result ≡ task_named word.now }
    ensures task { IfSome result (λ phase. is_task phase ≡ true) }
{
    match word {
        "run" => Some(Phase::Run),
        "pre_reset" => Some(Phase::PreReset),
        "reset" => Some(Phase::Reset),
        "post_reset" => Some(Phase::PostReset),
        "pre_configure" => Some(Phase::PreConfigure),
        "configure" => Some(Phase::Configure),
        "post_configure" => Some(Phase::PostConfigure),
        "pre_main" => Some(Phase::PreMain),
        "main" => Some(Phase::Main),
        "post_main" => Some(Phase::PostMain),
        "pre_shutdown" => Some(Phase::PreShutdown),
        "shutdown" => Some(Phase::Shutdown),
        "post_shutdown" => Some(Phase::PostShutdown),
        _ => None,
    }
}
