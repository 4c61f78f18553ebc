//! References to the services of a world.

ghost use Rattle.std.specs.Prelude.{◌≡◌, ℕ, IfSome, option_copied, option_map, true};
ghost use Rattle.bench_history.specs.Arbitration.{driver_requester, sequencer_at};
ghost use Rattle.bench_history.specs.Configuration.{settings_of};
ghost use Rattle.bench_history.specs.Dues.{due_events};
ghost use Rattle.bench_history.specs.History.{nodes_of, overrides_of};
ghost use Rattle.bench_history.specs.Objections.{objections_of};
ghost use Rattle.bench_history.specs.Passing.{fifo_state_at};
ghost use Rattle.bench_history.specs.Reports.{report_commands};
ghost use Rattle.bench_history.specs.Sequences.{sequences_of, step_of};
ghost use Rattle.bench_history.specs.Wires.{is_past_connect, wiring_of};
ghost use Rattle.uvm_phase.specs.Dues.{in_order};
ghost use Rattle.uvm_phase.specs.Phases.{is_task};
ghost use Rattle.uvm_report.specs.Changes.{ReportsAgree};
ghost use Rattle.uvm_sequences.specs.Sequences.{step_at};
ghost use Rattle.uvm_tlm.specs.Wirings.{is_closed};
ghost use Rattle.world_state.specs.Phased.{nodes_in};
ghost use Rattle.world_services.specs.Services.{IsFactory, IsSettings};
ghost use Rattle.world_wiring.specs.WiringMatch.{IsConnecting};

use bench_history::{EventTarget, Requester};
use bench_world::World;
use uvm_config::Settings;
use uvm_factory::Factory;
use uvm_object::EventCall;
use uvm_phase::{Agenda, Phase};
use uvm_report::Reports;
use uvm_sequences::Sequences;
use uvm_tlm::{Fifo, Wiring};
use uvm_tree::{NodeId, Tree};
use world_sequencing::arbiters::{Arbiter, arbiter_at};
use world_state::objections::Objections;
use world_wiring::fifo_states::fifo_at;

/// Returns the factory. Its types are the script's, and it resolves each of them by the accepted overrides (Clause 8). Requires a
/// consistent world.
pub fn factory(world: &World) -> &Factory
    requires { world.now.sound ≡ true }
    ensures { IsFactory world.now.script.types (overrides_of world.now.script world.now.history) result.now }
{
    &world.services().factory
}

/// Returns the settings. They answer each lookup by the accepted settings (Annex C). Requires a consistent world.
pub fn settings(world: &World) -> &Settings
    requires { world.now.sound ≡ true }
    ensures { IsSettings (settings_of world.now.script world.now.history) result.now }
{
    &world.services().settings
}

/// Returns the report server. Its results follow from the script, the accepted actions and the reports of the log (Clause 6). Requires a
/// consistent world.
pub fn reports(world: &World) -> &Reports
    requires { world.now.sound ≡ true }
    ensures { ReportsAgree result.now (report_commands world.now.script world.now.history) }
{
    &world.services().report_state.reports
}

/// Returns the agenda: the scheduled events in the order in which they are due. Requires a consistent world.
pub fn agenda(world: &World) -> &Agenda<EventTarget, EventCall>
    requires { world.now.sound ≡ true }
    ensures { result.now.dues ≡ in_order (due_events world.now.script world.now.history) }
{
    &world.services().agenda
}

/// Returns the objections of the phases that take time: at each node the raised count, and the count that is delayed by the drain time
/// (10.5). Requires a consistent world.
pub fn objections(world: &World) -> &Objections
    requires { world.now.sound ≡ true }
    ensures { (phase : Phase) → is_task phase ≡ true → nodes_in result.now phase ≡ objections_of world.now.script phase world.now.history }
{
    &world.services().objections
}

/// Returns the wiring: what can be connected, and the connections (Clause 12). It is closed after connect has ended, and then has the path
/// order of all nodes. Requires a consistent world.
pub fn wiring(world: &World) -> &Wiring
    requires { world.now.sound ≡ true }
    ensures kept { IsConnecting (nodes_of world.now.history) (wiring_of world.now.history) result.now }
    ensures closed { is_past_connect world.now.history ≡ true → is_closed result.now ≡ true }
{
    &world.services().wiring
}

/// Returns the sequences that were started, and the current step of each active one (Clause 14). Requires a consistent world.
pub fn sequences(world: &World) -> &Sequences
    requires { world.now.sound ≡ true }
    ensures started { result.now.started ≡ sequences_of world.now.history }
    ensures steps { (id : ℕ) → step_at result.now.steps id ≡ step_of world.now.history id }
{
    &world.services().sequences
}

/// Returns the tree. Requires a consistent world.
pub fn tree(world: &World) -> &Tree
    requires { world.now.sound ≡ true }
    ensures { result.now.nodes ≡ nodes_of world.now.history }
{
    &world.services().tree
}

/// Returns the FIFO at a node, if there is one: its items, and the puts, takes and peeks that wait (Clause 12). Requires a consistent world.
pub fn fifo(world: &World, node: NodeId) -> Option<&Fifo<Requester>>
    requires { world.now.sound ≡ true }
    ensures { option_copied result ≡ fifo_state_at world.now.history node }
{
    fifo_at(&world.services().fifo_states, node)
}

/// Returns the sequencer at a node, if there is one: its queue, its holders and its driver (Clause 15). Requires a consistent world.
pub fn sequencer(world: &World, node: NodeId) -> Option<&Arbiter>
    requires { world.now.sound ≡ true }
    ensures sequencer { option_map (λ a. a.now.sequencer) result ≡ sequencer_at world.now.history node }
    ensures driver { IfSome result (λ a. a.now.driver ≡ driver_requester world.now.history node) }
{
    arbiter_at(&world.services().arbiters, node)
}
