//! The waves of a run.

ghost use Rattle.std.specs.Prelude.{◌≡◌, ◌≤◌, ◌∷◌, ◌<◌, ℕ, [], List, Option, IfOk, None, OnOk, nat_eq, true};
ghost use Rattle.std.specs.HashMap.{get};
ghost use Rattle.bench_core.specs.Cores.{is_sound};
ghost use Rattle.bench_history.specs.History.{now_of};
ghost use Rattle.bench_history.specs.Next.{IsLegal};
ghost use Rattle.bench_waves.specs.Dumps.{AreLocks, HasDump, HasGone, IsAtTick, IsLastLocked, ShowsMore};
ghost use Rattle.bench_waves.specs.Waves.{WroteWaves};
ghost use Rattle.uvm_object.specs.declared.entries.Entry.{Entry as AnEntry};

use crate::changes::Changes;
use crate::headers::head_of;
use crate::scopes::Scope;
use crate::signals::Signal;
use crate::touches::find_touched;
use bench_core::{Core, World, laws, services};
use bench_replay::Replay;
use std::alloc::{AllocError, Global};
use std::collections::HashMap;
use std::io::{self, Write};
use uvm_object::Entry;
use uvm_sequences::SeqId;
use uvm_tree::NodeId;

// The sequence that locked or grabbed each sequencer last.
type Locks = HashMap<NodeId, SeqId>;

/// Writes the waves of a run that has ended: how the phase, the objections, the reports, the calls, and the state of each FIFO and sequencer
/// changed from entry to entry of its log. A tick has `steps` steps; each entry at a time is a step later than the one before it, as long as
/// there are steps. Requires a step. Of a run that ran out of memory nothing is written. Errors: the writer's; `InvalidInput` if a time in
/// steps needs more than 64 bits; out of memory.
pub fn write_waves<W: Write>(alloc: Global, core: &Core, steps: u64, out: &mut W) -> io::Result<()>
    requires { 0 < steps }
    ensures { OnOk result (is_sound core.now.health ≡ true → WroteWaves core.now.script core.now.history steps (W.contents out.old) (W.contents out.new)) }
{
    let Some(ended) = core.world() else {
        return Ok(());
    };
    let replay = match Replay::new(alloc, core, ended.script().copy()?) {
        Ok(replay) => replay,
        Err(_) => return Err(io::Error::from(io::ErrorKind::OutOfMemory)),
    };
    let scope = Scope::of_tree(alloc, services::tree(ended))?;
    let head = head_of(alloc, scope.tree, scope.signals.as_slice(), steps)?;
    out.write_all(head.as_slice())?;
    let mut changes = Changes::new(alloc, steps, scope.signals.as_slice())?;
    write_changes(alloc, replay, &scope, &mut changes, out)?;
    changes.finish(out)
}

// Writes the changes from entry to entry. Requires a replay without an entry, and a dump that begins. Errors: the writer's; `InvalidInput`; out
// of memory.
fn write_changes<W: Write>(
    alloc: Global,
    mut replay: Replay<'_>,
    scope: &Scope<'_>,
    changes: &mut Changes,
    out: &mut W,
) -> io::Result<()>
    requires none { replay.core.history ≡ [] }
    requires steps { 0 < changes.old.steps }
    requires begin { IsAtTick 0 changes.old }
    requires blank { changes.old.stamp ≡ None }
    ensures shown { OnOk result (HasDump replay.entry.ended.script replay.entry.ended.history scope.now.signals.items (W.contents out.old) (W.contents out.new) changes.new) }
    ensures within { OnOk result (changes.new.at ≤ changes.new.last) }
    ensures steps { OnOk result (changes.new.steps ≡ changes.old.steps) }
{
    let mut locks = HashMap::new(alloc);
    let mut places = Vec::new(alloc);
    scope.push_all(&mut places)?;
    let signals = scope.signals.as_slice();
    show(
        signals,
        places.as_slice(),
        &locks,
        world_of(replay.core())?,
        changes,
        out,
    )?;
    while replay.advance()? {
        let world = world_of(replay.core())?;
        go(world, changes, &mut locks)?;
        find_touched(scope, world, &mut places)?;
        show(signals, places.as_slice(), &locks, world, changes, out)?;
    }
    Ok(())
}

// Returns the state of a core. Errors: out of memory, if the core ran out of it.
fn world_of(core: &Core) -> Result<&World, AllocError>
    ensures sound { IfOk result (λ world. world.now.sound ≡ true) }
    ensures script { IfOk result (λ world. world.now.script ≡ core.now.script) }
    ensures history { IfOk result (λ world. world.now.history ≡ core.now.history) }
    ensures legal { OnOk result (IsLegal core.now.script core.now.history) }
{
    // For the proof: the log is legal.
    let _log = core.log();
    match core.world() {
        Some(world) => Ok(world),
        None => Err(AllocError),
    }
}

// Goes to the newest entry. Errors: `InvalidInput`; out of memory.
fn go(world: &World, changes: &mut Changes, locks: &mut Locks) -> io::Result<()>
    requires steps { 0 < changes.old.steps }
    requires legal { IsLegal world.now.script world.now.history }
    ensures gone { OnOk result ((entry : AnEntry) (before : List AnEntry) → world.now.history ≡ entry ∷ before → IsAtTick (now_of before) changes.old → HasGone (now_of world.now.history) changes.old changes.new) }
    ensures locks { OnOk result ((entry : AnEntry) (before : List AnEntry) → world.now.history ≡ entry ∷ before → AreLocks (get nat_eq locks.old) before → AreLocks (get nat_eq locks.new) world.now.history) }
{
    // Time never goes back.
    laws::on_time();
    match world.log().last() {
        Some(Entry::Time(time)) => changes.go(*time)?,
        Some(Entry::Locked { sequencer, id }) => {
            locks.insert(*sequencer, *id)?;
            changes.advance();
        }
        _ => changes.advance(),
    }
    Ok(())
}

// Returns the sequence that locked or grabbed the sequencer of a variable last, if the variable shows it.
fn lock_of(locks: &Locks, signal: &Signal) -> Option<SeqId>
    ensures { (log : List AnEntry) → AreLocks (get nat_eq locks.now) log → IsLastLocked log signal.now result }
{
    match signal {
        Signal::Holder(node) => locks.get(node).copied(),
        _ => None,
    }
}

// Writes the values of the variables at some places that have changed. Errors: the writer's; out of memory.
fn show<W: Write>(
    signals: &[Signal],
    places: &[usize],
    locks: &Locks,
    world: &World,
    changes: &mut Changes,
    out: &mut W,
) -> io::Result<()>
    requires sound { world.now.sound ≡ true }
    requires locks { AreLocks (get nat_eq locks.now) world.now.history }
    ensures { OnOk result (ShowsMore world.now.script world.now.history signals.now changes.old changes.new (W.contents out.old) (W.contents out.new)) }
{
    for place in places {
        show_one(signals, *place, locks, world, changes, out)?;
    }
    Ok(())
}

// Writes the value of the variable at a place, if it has changed. Errors: the writer's; out of memory.
fn show_one<W: Write>(
    signals: &[Signal],
    place: usize,
    locks: &Locks,
    world: &World,
    changes: &mut Changes,
    out: &mut W,
) -> io::Result<()>
    requires sound { world.now.sound ≡ true }
    requires locks { AreLocks (get nat_eq locks.now) world.now.history }
    ensures { OnOk result (ShowsMore world.now.script world.now.history signals.now changes.old changes.new (W.contents out.old) (W.contents out.new)) }
{
    match signals.get(place) {
        Some(signal) => changes.show(world, place, signal, lock_of(locks, signal), out),
        None => Ok(()),
    }
}
