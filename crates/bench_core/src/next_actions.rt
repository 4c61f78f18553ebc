//! The choice of the next action of the kernel.

ghost use Rattle.std.specs.Prelude.{◌≡◌, true, [], ◌∷◌, None, Some, IfOk, OnOk, OnErr, if◌then◌else◌};
ghost use Rattle.uvm_object.specs.declared.entries.Entry.TheVariants.{End};
ghost use Rattle.bench_history.specs.Dues.{first_due};
ghost use Rattle.uvm_acts.specs.declared.acts.Call.TheVariants as call;
ghost use Rattle.uvm_acts.specs.declared.acts.Who.TheVariants as who;
ghost use Rattle.bench_history.specs.Cases.{Answer, Exactly, by_call, origin_of, phase_to_begin, port_check, phase_end, time_passes};
ghost use Rattle.bench_history.specs.Objections.{is_kept};
ghost use Rattle.bench_history.specs.Laws.{is_at_check};
ghost use Rattle.bench_history.specs.Next.{first_next, next_of};
ghost use Rattle.world_entries.specs.KernelEntries.{entry_of};
ghost use Rattle.bench_core.specs.NextActions.{IsNextAction};
ghost use Rattle.bench_core.specs.Worlds as request;
ghost use Rattle.bench_core.specs.Worlds.{broken};

use bench_history::{EventTarget, RunStage};
use std::alloc::AllocError;
use uvm_object::{Call, EventCall, Fatal, Origin, Reason, Who};
use uvm_phase::{Due, Phase, Schedule};
use uvm_tree::NodeId;
use world_entries::kernel_entries::KernelEntry;
use world_views::{PendingCall, World, next, services, status};

/// The next action of the kernel.
#[derive(Drop)]
pub enum NextAction {
    /// No action: the run has ended.
    Nothing,
    /// The addition of this kernel entry.
    Enter(KernelEntry),
    /// The grant of an item at a sequencer, and whether a random number decides which sequence it goes to.
    Grant(NodeId, bool),
    /// The transfer that completes a waiting request at a FIFO.
    Pass,
    /// The next action of the last answer: its entry is added, or it needs an object first.
    Act,
    /// The request for an answer to a call, which is the pending call.
    Ask,
}

/// Returns the next action of the kernel. Asks the world for an answer if the action is `Ask`. Requires a consistent world without an open
/// request. Errors: out of memory; the log is unchanged, and the world is no longer consistent.
#[tactic(auto, unfolding(bench_history::specs::Next::next_of))]
pub fn choose(world: &mut World) -> Result<NextAction, AllocError>
    requires sound { world.old.sound ≡ true }
    requires standing { world.old.standing ≡ request.Nothing }
    ensures choice { IfOk result (IsNextAction (next_of world.old.script world.old.history) world.new.standing) }
    ensures after { OnOk result (world.new ≡ record world.old { standing = world.new.standing }) }
    ensures err { OnErr result (world.new ≡ broken world.old) }
{
    let stage = status::stage(world);
    if let RunStage::Ended = stage {
        return Ok(NextAction::Nothing);
    }
    if let Some(reason) = status::reason(world) {
        return Ok(NextAction::Enter(KernelEntry::Over(reason)));
    }
    if let Some((sequencer, id)) = next::next_locked(world) {
        return Ok(NextAction::Enter(KernelEntry::Locked(sequencer, id)));
    }
    if let Some((sequencer, drawn)) = next::next_served(world) {
        return Ok(NextAction::Grant(sequencer, drawn));
    }
    if next::is_passing(world) {
        return Ok(NextAction::Pass);
    }
    match status::acts_left(world) {
        0 => {}
        count if count > World::MAX_ACTS => {
            let node = status::performer(world).node();
            return Ok(NextAction::Enter(KernelEntry::Note(Fatal::TooManyActs, node)));
        }
        _ => return Ok(NextAction::Act),
    }
    if let Some(due) = next::due_now(world) {
        let (target, call, origin) = (due.owner, due.notice.call(), origin_of(due));
        return Ok(happening(world, target, call, origin));
    }
    if let Some(phase) = next_begin(world.script().has_runtime(), stage) {
        return Ok(NextAction::Enter(KernelEntry::Begin(phase)));
    }
    if let Some((node, phase)) = next::next_turn(world) {
        return Ok(in_turn(world, node, phase));
    }
    match status::phase(world) {
        Some(phase) => Ok(NextAction::Enter(done(world, phase)?)),
        None => Ok(NextAction::Enter(KernelEntry::Over(Reason::Finished))),
    }
}

// Returns the phase that begins next, or `None` if none does (Clause 9): the first phase, or the one that follows the phase that has ended.
// During the run phase, the first run-time phase begins, if run-time phases are enabled. After the last of them the run phase goes on, and
// no phase begins.
fn next_begin(has_runtime: bool, stage: RunStage) -> Option<Phase>
    ensures { result ≡ phase_to_begin has_runtime stage }
{
    match stage {
        RunStage::Before => Some(Phase::Build),
        RunStage::During(Phase::Run) if has_runtime => Some(Phase::PreReset),
        RunStage::After(Phase::PostShutdown) => None,
        RunStage::After(phase) => Schedule::next(phase),
        RunStage::During(_) | RunStage::Ended => None,
    }
}

// Returns the entry that follows when each component had its call. In connect it reports the next misconnected port, if there is one.
// Otherwise it ends the phase, or lets time pass.
#[inline(never)]
fn done(world: &mut World, phase: Phase) -> Result<KernelEntry, AllocError>
    requires sound { world.old.sound ≡ true }
    requires at_check { phase ≡ Phase.Connect → is_at_check world.old.script world.old.history ≡ true }
    ensures kernel_entry { IfOk result (λ kernel_entry. first_next (port_check world.old.history (Some phase) ∷ phase_end world.old.script world.old.history (Some phase) ∷ []) ≡ Exactly (entry_of kernel_entry)) }
    ensures unchanged { OnOk result (world.new ≡ world.old) }
    ensures err { OnErr result (world.new ≡ broken world.old) }
{
    if let Phase::Connect = phase
        && let Some((port, fatal)) = world.next_unsound()?
    {
        return Ok(KernelEntry::Note(fatal, port));
    }
    Ok(ending(world, phase))
}

// Returns the cause of an event and its phase.
fn origin_of(due: &Due<EventTarget, EventCall>) -> Origin
    ensures { result ≡ origin_of due.now }
{
    Origin {
        cause: due.cause,
        phase: due.phase,
    }
}

// Asks the target of an event for the answer to its call, or returns the end of a drain if the event has no call.
fn happening(
    world: &mut World,
    target: EventTarget,
    call: Option<Call>,
    origin: Origin,
) -> NextAction
    requires sound { world.old.sound ≡ true }
    requires standing { world.old.standing ≡ request.Nothing }
    ensures action { IsNextAction (by_call target call origin) world.new.standing result }
    ensures after { world.new ≡ record world.old { standing = world.new.standing } }
{
    let who = target.who();
    match call {
        Some(call) => {
            world.ask(PendingCall {
                who,
                call,
                origin: Some(origin),
            });
            NextAction::Ask
        }
        None => NextAction::Enter(KernelEntry::Drained(who.node(), origin)),
    }
}

// Asks a component for the answer to the call of a phase.
fn in_turn(world: &mut World, node: NodeId, phase: Phase) -> NextAction
    requires { world.old.sound ≡ true }
    ensures action { IsNextAction (Answer (who.Node node) (call.Phase phase) None) world.new.standing result }
    ensures after { world.new ≡ record world.old { standing = world.new.standing } }
{
    world.ask(PendingCall {
        who: Who::Node(node),
        call: Call::Phase(phase),
        origin: None,
    });
    NextAction::Ask
}

// Returns the entry that ends the phase, or that lets time pass while an objection prevents the end.
fn ending(world: &World, phase: Phase) -> KernelEntry
    requires { world.now.sound ≡ true }
    ensures { entry_of result ≡ (if is_kept world.now.script phase world.now.history then time_passes world.now.script.time_limit (first_due world.now.script world.now.history) else End phase) }
{
    if status::is_kept(world, phase) {
        time_passes(world)
    } else {
        KernelEntry::End(phase)
    }
}

// Returns the entry that lets time pass to the first scheduled event. Without an event it notes a stall; if the event is due after the time
// limit, a timeout.
fn time_passes(world: &World) -> KernelEntry
    requires { world.now.sound ≡ true }
    ensures { entry_of result ≡ time_passes world.now.script.time_limit (first_due world.now.script world.now.history) }
{
    let limit = world.script().time_limit();
    match services::agenda(world).first() {
        None => KernelEntry::Note(Fatal::Stall, NodeId::TOP),
        Some(due) if due.time > limit => KernelEntry::Note(Fatal::Timeout, NodeId::TOP),
        Some(due) => KernelEntry::Time(due.time),
    }
}
