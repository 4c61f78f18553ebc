//! The action that adds a node to the tree.

ghost use Rattle.std.specs.Prelude.{◌≡◌, ℕ, ◌∷◌, ◌++◌, [], false, None, Some, IfOk, IfNone};
ghost use Rattle.uvm_acts.specs.Acts.{node_of};
ghost use Rattle.uvm_acts.specs.declared.acts.Act.TheVariants.{Add};
ghost use Rattle.bench_history.specs.History.{kind_of};
ghost use Rattle.bench_history.specs.Refusals.{addition_refusal, child_refusal};
ghost use Rattle.world_services.specs.ActResults.{CanPerform, IsActResult};

use std::alloc::{AllocError, Global};
use uvm_glob::Name;
use uvm_object::{Fatal, What};
use uvm_objection::laws;
use uvm_tree::NodeKind;
use world_sequencing::arbiters::add_arbiter;
use world_services::act_results::{ActResult, done, refused};
use world_services::creations::child_refusal;
use world_services::nodes::add_node;
use world_services::services::Services;
use world_wiring::connections::add_end;
use world_wiring::fifo_states::add_fifo_state;

/// Adds a node below the performer's, or refuses it: with `CreatedAfterBuild`, then the refusal of the name. Errors: out of memory.
pub fn add(
    services: &mut Services,
    alloc: Global,
    name: Name,
    what: What,
) -> Result<ActResult, AllocError>
    requires { CanPerform services.old }
    ensures { IfOk result (λ act_result. (place : ℕ) → IsActResult (Add name what) act_result place services.old services.new) }
{
    if let Some(fatal) = addition_refusal(services, &name) {
        return refused(services, alloc, fatal);
    }
    laws::nodes_grow();
    laws::places_stay();
    let parent = services.answer.performer.node();
    let (tree, objections) = (&mut services.tree, &mut services.objections);
    let node = add_node(tree, objections, parent, name, kind_of(what))?;
    add_end(&mut services.wiring, node, what)?;
    add_fifo_state(&mut services.fifo_states, alloc, node, what)?;
    add_arbiter(&mut services.arbiters, alloc, node, what)?;
    // No transfer can complete and no request can be granted, also not at the new node.
    services.fifos_to_settle.clear();
    services.grant_index.add(node, what)?;
    Ok(done(services))
}

// Returns why nothing is added under a name, if so.
#[tactic(auto, unfolding(bench_history::specs::Refusals::addition_refusal))]
fn addition_refusal(services: &Services, name: &Name) -> Option<Fatal>
    ensures refusal { result ≡ addition_refusal services.now.built services.now.tree.nodes (node_of services.now.answer.performer) name.now }
    ensures building { IfNone result (services.now.built ≡ false) }
    ensures free { IfNone result (child_refusal services.now.tree.nodes (node_of services.now.answer.performer) name.now ≡ None) }
{
    if services.built {
        return Some(Fatal::CreatedAfterBuild);
    }
    child_refusal(&services.tree, services.answer.performer.node(), name)
}

// Returns the kind of node that an addition adds to the tree.
fn kind_of(what: What) -> NodeKind
    ensures { result ≡ kind_of what }
{
    match what {
        What::Sequencer { .. } => NodeKind::Sequencer,
        What::Fifo { .. } => NodeKind::Fifo,
        What::Port { .. } => NodeKind::Port,
        What::Export { .. } => NodeKind::Export,
        What::Imp => NodeKind::Imp,
    }
}
