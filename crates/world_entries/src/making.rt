//! The object that a creation or a start needs, and the capacity reserved for it.

ghost use Rattle.std.specs.Prelude.{◌≡◌, ℕ, List, None, OnOk, IfOk, IsSome, length};
ghost use Rattle.uvm_object.specs.declared.entries.Outcome.TheVariants.{Made};
ghost use Rattle.bench_script.specs.Factories.{IsFactoryOf};
ghost use Rattle.bench_history.specs.History.{created_name, test_creation};
ghost use Rattle.bench_history.specs.Laws.{IsCreation};
ghost use Rattle.uvm_object.specs.Fatals.{fatal_report};
ghost use Rattle.uvm_object.specs.declared.fatals.Fatal.TheVariants.{NoObject};
ghost use Rattle.world_services.specs.CreationsMatch.{CanGrow, CanMake, outcome_made, who_made};
ghost use Rattle.world_services.specs.ActResults.{PreservesMatchByAct};
ghost use Rattle.world_entries.specs.Rooms.{GiveTheSame, HasRoomToMake};

use bench_history::Need;
use bench_script::Script;
use std::alloc::{AllocError, Global};
use std::marker::Model;
use uvm_factory::Factory;
use uvm_glob::Name;
use uvm_object::{Act, Fatal, Log, LoggedOutcome, StoredAct, Who};
use uvm_objection::laws;
use uvm_report::Report;
use uvm_tree::{NodeId, NodeKind};
use world_acts_sequencers::starts::begin;
use world_services::nodes::add_node;
use world_services::rooms::{reserve_component, reserve_sequence};
use world_services::services::Services;

/// What is stored of a creation or start that waits for its object: its need, its action, the sequencer of a sequence, memory for the name
/// of the created type, and the report for a declined object.
#[derive(Drop)]
pub struct PendingParts {
    pub need: Need,
    pub stored_act: StoredAct,
    pub home: Option<NodeId>,
    pub name: Box<Name>,
    pub declined: Report,
}

/// A creation or start that waits for its object. The data is boxed, so that other actions reserve no space for it. Contracts see the data.
pub struct PendingCreation {
    parts: Box<PendingParts>,
}

// (Written by hand, so that crates above need not prove the drop of each field.)
impl Drop for PendingCreation {
    fn drop(self) {
        let PendingCreation { parts: _ } = self;
    }
}

impl Model for PendingCreation {
    ghost use Rattle.world_entries.specs.declared.making.PendingParts.{PendingParts};

    ghost Value = { PendingParts };

    ghost view = { λ w. w.parts.value };
}

impl PendingCreation {
    /// Creates a pending creation, before its object exists. Errors: out of memory. (Not inlined, so that other actions reserve no space
    /// for it.)
    #[inline(never)]
    pub fn new(
        alloc: Global,
        need: Need,
        stored_act: StoredAct,
        home: Option<NodeId>,
    ) -> Result<PendingCreation, AllocError>
        ensures { IfOk result (λ waiting. (waiting.need ≡ need) × (waiting.stored_act ≡ stored_act) × (waiting.declined ≡ fatal_report NoObject) × (waiting.home ≡ home)) }
    {
        let name = Box::new(alloc, placeholder())?;
        let declined = Fatal::NoObject.report(alloc)?;
        let parts = PendingParts {
            need,
            stored_act,
            home,
            name,
            declined,
        };
        Ok(PendingCreation {
            parts: Box::new(alloc, parts)?,
        })
    }

    /// Returns a reference to the data.
    pub fn parts(&self) -> &PendingParts
        ensures { result.now ≡ self.now }
    {
        &self.parts
    }

    /// Returns the data. Allocates no memory.
    pub fn into_parts(self) -> PendingParts
        ensures { result ≡ self }
    {
        let PendingCreation { parts } = self;
        Box::into_inner(parts)
    }
}

// Returns a name that is overwritten later.
#[tactic(auto, unfolding(uvm_glob::specs::Names::name_fault))]
fn placeholder() -> Name {
    let Ok(name) = Name::new(b"-") else {
        unreachable!()
    };
    name
}

/// Reserves capacity for the entry of a creation or a start: for a component under the performer's node, a sequence with its first call, a
/// report of this id, and the log entry. Errors: out of memory. An error changes only reserved capacity.
pub fn make_room(log: &mut Log, services: &mut Services, id: &Name) -> Result<(), AllocError>
    ensures entries { log.new.entries ≡ log.old.entries }
    ensures limit { log.new.limit ≡ log.old.limit }
    ensures same { GiveTheSame services.old services.new }
    ensures room { OnOk result (HasRoomToMake id.now log.new services.new) }
{
    reserve_component(services)?;
    reserve_sequence(services)?;
    services.report_state.reserve_id(id)?;
    log.reserve()
}

/// Adds the object that an action creates: a component of a type, or a sequence on `home`. Returns its identity and the outcome of the
/// action, whose entry gets `place`. Uses reserved capacity; allocates no memory.
pub fn make(
    services: &mut Services,
    act: &Act,
    home: Option<NodeId>,
    room: Box<Name>,
    type_name: Name,
    place: u32,
) -> (Who, LoggedOutcome)
    requires { CanMake act.now home services.old }
    ensures who { result.0 ≡ who_made services.old home }
    ensures outcome { result.1 ≡ outcome_made services.old type_name home }
    ensures kept { PreservesMatchByAct act.now (outcome_made services.old type_name home) place services.old services.new }
{
    match home {
        None => {
            let node = grow(services, act);
            (Who::Node(node), LoggedOutcome::made(room, type_name))
        }
        Some(home) => {
            let id = begin(services, act, &home, place);
            (Who::Sequence { id, home }, LoggedOutcome::started(id))
        }
    }
}

// Adds the component that an action creates, and returns its node. Uses reserved capacity.
fn grow(services: &mut Services, act: &Act) -> NodeId
    requires { CanGrow act.now services.old }
    ensures node { result ≡ length services.old.tree.nodes }
    ensures kept { (type_name : List ℕ) (place : ℕ) → PreservesMatchByAct act.now (Made type_name) place services.old services.new }
{
    laws::nodes_grow();
    laws::places_stay();
    let parent = services.answer.performer.node();
    let name = created_name(act);
    let (tree, objections) = (&mut services.tree, &mut services.objections);
    let Ok(node) = add_node(tree, objections, parent, name, NodeKind::Component) else {
        unreachable!()
    };
    services.phase_cursors.make(&services.tree, node);
    services.report_state.newest = None;
    // No transfer can complete and no request can be granted.
    services.fifos_to_settle.clear();
    services.grant_index.close();
    node
}

// Returns the name of the object that an action creates.
fn created_name(act: &Act) -> Name
    requires { IsCreation act.now }
    ensures { result ≡ created_name act.now }
{
    match act {
        Act::Create { name, .. } => *name,
        _ => unreachable!(),
    }
}

/// Returns the action that creates the test of a script, with its type from the factory.
#[tactic(auto, unfolding(uvm_glob::specs::Names::name_fault))]
pub fn test_creation(script: &Script, factory: &Factory) -> Act
    requires test { IsSome script.now.test }
    requires factory { IsFactoryOf script.now factory.now }
    ensures { result ≡ test_creation script.now }
{
    let Some(test) = script.test() else {
        unreachable!()
    };
    let Some(type_name) = factory.name_of(test) else {
        unreachable!()
    };
    let Ok(name) = Name::new(b"uvm_test_top") else {
        unreachable!()
    };
    Act::Create {
        type_name: *type_name,
        name,
    }
}
