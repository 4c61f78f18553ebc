//! The starts of sequences (IEEE 1800.2-2020, Clause 14).

ghost use Rattle.std.specs.Prelude.{◌≡◌, ◌∷◌, ◌++◌, ◌+◌, ◌<◌, ℕ, suc, [], List, None, Some, IfOk, IfErr, IfSome, length, option_and_then};
ghost use Rattle.uvm_glob.specs.Paths.{path_fault};
ghost use Rattle.uvm_sequences.specs.declared.starts.SeqStep.TheVariants.{PreStart};
ghost use Rattle.uvm_factory.specs.declared.overrides.Override.{Override};
ghost use Rattle.uvm_factory.specs.declared.types.Kind.TheVariants.{Sequence};
ghost use Rattle.uvm_factory.specs.Faults.{Types, type_named};
ghost use Rattle.uvm_factory.specs.Observed.{types_of};
ghost use Rattle.uvm_tree.specs.Nodes.{path_at};
ghost use Rattle.uvm_acts.specs.declared.acts.Act.TheVariants.{Start};
ghost use Rattle.uvm_object.specs.declared.entries.Outcome.TheVariants.{Started};
ghost use Rattle.bench_history.specs.Refusals.{is_none_at_all, sequence_named, starting_refusal};
ghost use Rattle.bench_history.specs.Sequences.{home_asked, if_sequencer, parent_names};
ghost use Rattle.bench_history.specs.Effects.{needed_sequence};
ghost use Rattle.world_state.specs.ReportsMatch.{CanReport};
ghost use Rattle.world_services.specs.CreationsMatch.{CanBegin};
ghost use Rattle.world_sequencing.specs.SequencesMatch.{MayFail, name_started, priority_given};
ghost use Rattle.world_services.specs.ActResults.{IsActResult, PreservesMatchByAct};
ghost use Rattle.world_services.specs.Services.{IsFactory};
ghost use Rattle.world_services.specs.Creations.{IsUnstarted, starting_in};

use bench_history::Need;
use std::alloc::{AllocError, Global};
use uvm_factory::{Factory, Kind, TypeId};
use uvm_glob::{Name, Path, PathFault};
use uvm_object::{Act, Call, Fatal, StoredCall, Who};
use uvm_sequencer::laws as sequencers;
use uvm_sequences::SeqId;
use uvm_tree::{NodeId, NodeKind, Tree};
use world_sequencing::start_records::{
    is_none_at_all, name_started, parent_names, path_below, priority_given, push, start_under,
};
use world_services::act_results::{ActResult, refused};
use world_services::creations::{CreationError, made_name};
use world_services::services::Services;
use world_services::tells::schedule_call;
use world_state::stages::in_task;
use world_wiring::connections::node_below;

/// Returns which sequence the start by the performer needs, with its sequencer, or refuses it as `what_is_started` says. Errors: out of
/// memory.
pub fn start(
    services: &mut Services,
    alloc: Global,
    type_name: &Name,
    name: &Name,
    on: &Path,
    priority: Option<u16>,
) -> Result<ActResult, AllocError>
    requires { CanReport services.old.report_state }
    ensures { IfOk result (λ act_result. (place : ℕ) → IsActResult (Start type_name.now name.now on.now priority) act_result place services.old services.new) }
{
    let performer = services.answer.performer;
    match what_is_started(services, alloc, &performer, type_name, name, on, priority) {
        Ok((need, home)) => Ok(ActResult::Needed {
            need,
            home: Some(home),
        }),
        Err(CreationError::Refused(fatal)) => refused(services, alloc, fatal),
        Err(CreationError::Memory) => Err(AllocError),
    }
}

/// Returns which sequence a start needs, with its sequencer. Errors: `Refused`, with `OutsideTask`, `OutOfRange`, `InvalidType`,
/// `NoSequencer`, or `TreeLimit` if its path has a fault; out of memory; `Refused`, with `OverrideLoop`. Out of memory may come before
/// `TreeLimit`.
#[tactic(auto, unfolding(bench_history::specs::Refusals::starting_refusal))]
pub fn what_is_started(
    services: &Services,
    alloc: Global,
    performer: &Who,
    type_name: &Name,
    name: &Name,
    on: &Path,
    priority: Option<u16>,
) -> Result<(Need, NodeId), CreationError>
    ensures ok { IfOk result (λ found. (types : Types) (overrides : List Override) → IsFactory types overrides services.now.factory →
        let start = starting_in types overrides services.now performer.now type_name.now name.now on.now priority in
        (starting_refusal start ≡ None) × (needed_sequence start ≡ found.0)) }
    ensures home { IfOk result (λ found. home_asked services.now.tree.nodes performer.now on.now ≡ Some found.1) }
    ensures err { IfErr result (λ fault. (types : Types) (overrides : List Override) → IsFactory types overrides services.now.factory →
        IsUnstarted (starting_refusal (starting_in types overrides services.now performer.now type_name.now name.now on.now priority)) fault) }
{
    if !in_task(services.answer.phase) {
        return Err(CreationError::Refused(Fatal::OutsideTask));
    }
    if is_none_at_all(priority) {
        return Err(CreationError::Refused(Fatal::OutOfRange));
    }
    let Some(type_id) = sequence_named(&services.factory, type_name) else {
        return Err(CreationError::Refused(Fatal::InvalidType));
    };
    let Some(home) = home_asked(&services.tree, performer, on) else {
        return Err(CreationError::Refused(Fatal::NoSequencer));
    };
    let path = match started_path(services, alloc, performer, home, name) {
        Ok(path) => path,
        Err(PathFault::Memory) => return Err(CreationError::Memory),
        Err(_) => return Err(CreationError::Refused(Fatal::TreeLimit)),
    };
    match made_name(&services.factory, type_id, type_name, &path) {
        Some(type_name) => Ok((needed(type_name, path), home)),
        None => Err(CreationError::Refused(Fatal::OverrideLoop)),
    }
}

// Returns the need for a sequence of a type.
fn needed(type_name: Name, path: Path) -> Need
    ensures { result ≡ record { kind = Sequence; type_name = type_name; path = path } }
{
    Need {
        kind: Kind::Sequence,
        type_name,
        path,
    }
}

// Returns the sequence type of a name, if there is one.
fn sequence_named(factory: &Factory, name: &Name) -> Option<TypeId>
    ensures named { result ≡ sequence_named (types_of factory.now) name.now }
    ensures known { IfSome result (λ type_id. type_named (types_of factory.now) name.now ≡ Some type_id) }
    ensures within { IfSome result (λ type_id. type_id < length (types_of factory.now)) }
{
    let type_id = factory.find(name)?;
    match factory.kind_of(type_id) {
        Some(Kind::Sequence) => Some(type_id),
        _ => None,
    }
}

// Returns the sequencer on which a performer starts a sequence, if there is one.
fn home_asked(tree: &Tree, performer: &Who, on: &Path) -> Option<NodeId>
    ensures { result ≡ home_asked tree.now.nodes performer.now on.now }
{
    match performer {
        Who::Node(_) => if_sequencer(tree, node_below(tree, performer, on)),
        Who::Sequence { home, .. } if on.depth() == 0 => Some(*home),
        Who::Sequence { .. } => None,
    }
}

// Returns the node, if it is a sequencer.
fn if_sequencer(tree: &Tree, node: Option<NodeId>) -> Option<NodeId>
    ensures { result ≡ option_and_then (if_sequencer tree.now.nodes) node }
{
    let node = node?;
    match tree.kind(node) {
        Some(NodeKind::Sequencer) => Some(node),
        _ => None,
    }
}

// Returns the path that the factory uses for a sequence. Errors: a fault of the path; out of memory.
fn started_path(
    services: &Services,
    alloc: Global,
    performer: &Who,
    home: NodeId,
    name: &Name,
) -> Result<Path, PathFault>
    ensures ok { IfOk result (λ path. (path_fault (path_at services.now.tree.nodes home ++ parent_names services.now.sequences.started performer.now ++ name.now ∷ []) ≡ None)
        × (path ≡ path_at services.now.tree.nodes home ++ parent_names services.now.sequences.started performer.now ++ name.now ∷ [])) }
    ensures err { IfErr result (λ fault. MayFail (path_fault (path_at services.now.tree.nodes home ++ parent_names services.now.sequences.started performer.now ++ name.now ∷ [])) fault) }
{
    let names = parent_names(&services.sequences, alloc, performer)?;
    match services.tree.path(home) {
        Some(above) => path_below(above, names.as_slice(), name),
        None => path_below(&Path::top(alloc), names.as_slice(), name),
    }
}

/// Starts a sequence for the performer, schedules its first call, and returns its number. Uses reserved capacity; allocates no memory.
pub fn begin(services: &mut Services, act: &Act, home: &NodeId, place: u32) -> SeqId
    requires { CanBegin act.now home.now services.old }
    ensures id { result ≡ length services.old.sequences.started + 1 }
    ensures kept { PreservesMatchByAct act.now (Started (suc (length services.old.sequences.started))) place services.old services.new }
{
    // A start changes nothing for the requests that wait at a sequencer.
    sequencers::starts_change_nothing();
    let starter = services.answer.performer;
    let name = name_started(act);
    let given = priority_given(act);
    let Ok(id) = start_under(&mut services.sequences, *home, &starter, name, given) else {
        unreachable!()
    };
    let who = Who::Sequence { id, home: *home };
    let phase = services.answer.phase;
    let Ok(()) = push(&mut services.start_records, &who, &starter, phase) else {
        unreachable!()
    };
    let time = services.time;
    let Ok(held) = StoredCall::new(services.agenda.alloc(), &Call::PreStart) else {
        unreachable!()
    };
    let Ok(()) = schedule_call(services, who.copy(), phase, held, time, place) else {
        unreachable!()
    };
    services.report_state.newest = None;
    id
}
