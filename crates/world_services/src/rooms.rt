//! Reserves capacity for what an action creates, before it is created.

ghost use Rattle.std.specs.Prelude.{◌≡◌, ◌<◌, OnOk, IsSome, Some, vec_len, vec_capacity};
ghost use Rattle.uvm_tree.specs.Nodes.{node_at};
ghost use Rattle.uvm_acts.specs.Acts.{node_of};
ghost use Rattle.world_state.specs.Phased.{SameNodes, spare_in};
ghost use Rattle.world_services.specs.PhaseCursors.{AreSamePhaseCursors, HaveRoom};

use crate::services::Services;
use std::alloc::AllocError;
use uvm_phase::Phase;

/// Reserves capacity for a component under the performer's node. Errors: out of memory. An error changes only reserved capacity.
pub fn reserve_component(services: &mut Services) -> Result<(), AllocError>
    ensures services { services.new ≡ record services.old { tree = services.new.tree; objections = services.new.objections; phase_cursors = services.new.phase_cursors } }
    ensures nodes { services.new.tree.nodes ≡ services.old.tree.nodes }
    ensures objections { SameNodes services.old.objections services.new.objections }
    ensures given { services.new.objections.given ≡ services.old.objections.given }
    ensures phase_cursors { AreSamePhaseCursors services.old.phase_cursors services.new.phase_cursors }
    ensures tree_spare { OnOk result (IsSome (node_at services.old.tree.nodes (node_of services.old.answer.performer)) → services.new.tree.spare ≡ Some (node_of services.old.answer.performer)) }
    ensures objection_spare { OnOk result ((phase : Phase) → 0 < spare_in services.new.objections phase) }
    ensures late_spare { OnOk result (HaveRoom services.new.phase_cursors) }
{
    services.tree.reserve(services.answer.performer.node())?;
    services.objections.reserve()?;
    services.phase_cursors.reserve()
}

/// Reserves capacity for a sequence and its first call. Errors: out of memory. An error changes only reserved capacity.
pub fn reserve_sequence(services: &mut Services) -> Result<(), AllocError>
    ensures services { services.new ≡ record services.old { sequences = services.new.sequences; start_records = services.new.start_records; agenda = services.new.agenda } }
    ensures sequences { (services.new.sequences.started ≡ services.old.sequences.started) × (services.new.sequences.steps ≡ services.old.sequences.steps) }
    ensures start_records_items { services.new.start_records.items ≡ services.old.start_records.items }
    ensures dues { services.new.agenda.dues ≡ services.old.agenda.dues }
    ensures sequence_spare { OnOk result (0 < services.new.sequences.spare) }
    ensures start_records { OnOk result (vec_len services.new.start_records < vec_capacity services.new.start_records) }
    ensures agenda_spare { OnOk result (0 < services.new.agenda.spare) }
{
    services.sequences.reserve()?;
    services.start_records.reserve(1)?;
    services.agenda.reserve()
}
