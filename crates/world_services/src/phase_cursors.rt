//! Which component receives its callback next in each active phase (IEEE 1800.2-2020, Clause 9).

ghost use Rattle.std.specs.Prelude.{◌≡◌, ◌<◌, [], OnOk, Some, None};
ghost use Rattle.uvm_tree.specs.Cursors.{is_before};
ghost use Rattle.uvm_tree.specs.Nodes.{AreNodes};
ghost use Rattle.bench_history.specs.History.{phase_order};
ghost use Rattle.world_services.specs.PhaseCursors.{AreSamePhaseCursors, HasBegunRound, HaveRoom, IsHeardInPhaseCursors, IsMadeInPhaseCursors, phase_cursor_in};
ghost use Rattle.world_services.specs.PhaseCursor.{IsFirstWaiting};

use crate::phase_cursor::{PhaseCursor, direction_of};
use std::alloc::{AllocError, Global};
use uvm_phase::Phase;
use uvm_tree::{NodeId, Tree};

/// The components that wait for their callback in the active phases: in a common phase, and in a run-time phase, which runs in parallel
/// with the run phase.
#[derive(Drop)]
pub struct PhaseCursors {
    pub common: PhaseCursor,
    pub runtime: PhaseCursor,
}

impl PhaseCursors {
    /// Creates the cursors, before any phase. Allocates no memory.
    pub fn new(alloc: Global) -> PhaseCursors
        ensures last { (result.common.last ≡ None) × (result.runtime.last ≡ None) }
        ensures late { (result.common.late.items ≡ []) × (result.runtime.late.items ≡ []) }
    {
        PhaseCursors {
            common: PhaseCursor::new(alloc),
            runtime: PhaseCursor::new(alloc),
        }
    }

    /// Records that a phase begins: each component waits in it.
    pub fn begin(&mut self, phase: Phase)
        ensures { HasBegunRound phase self.old self.new }
    {
        let direction = direction_of(phase);
        if phase.is_runtime() {
            self.runtime.begin(direction);
        } else {
            self.common.begin(direction);
        }
    }

    /// Records that the next component of a phase received its callback.
    pub fn hear(&mut self, phase: Phase, node: NodeId)
        ensures { IsHeardInPhaseCursors phase node self.old self.new }
    {
        if phase.is_runtime() {
            self.runtime.hear(node);
        } else {
            self.common.hear(node);
        }
    }

    /// Reserves capacity for a component. Errors: out of memory. An error changes only reserved capacity.
    pub fn reserve(&mut self) -> Result<(), AllocError>
        ensures same { AreSamePhaseCursors self.old self.new }
        ensures room { OnOk result (HaveRoom self.new) }
    {
        self.common.late.reserve(1)?;
        self.runtime.late.reserve(1)
    }

    /// Records that a component was created: it waits in each active phase. Uses reserved capacity.
    pub fn make(&mut self, tree: &Tree, node: NodeId)
        requires { HaveRoom self.old }
        ensures { IsMadeInPhaseCursors tree.now.nodes node self.old self.new }
    {
        self.common.make(tree, node);
        self.runtime.make(tree, node);
    }

    /// Returns the first component, in the order of a phase, that waits in it; `None` if none waits. Allocates no memory.
    pub fn first(&self, tree: &Tree, phase: Phase) -> Option<NodeId>
        ensures first { IsFirstWaiting (is_before (phase_order phase) tree.now.nodes) tree.now.nodes (phase_cursor_in phase self.now) result }
        ensures nodes { AreNodes tree.now.nodes }
    {
        self.phase_cursor(phase).first(tree, direction_of(phase))
    }

    // Returns the cursor of the phases of the same sort.
    fn phase_cursor(&self, phase: Phase) -> &PhaseCursor
        ensures { result.now ≡ phase_cursor_in phase self.now }
    {
        if phase.is_runtime() {
            &self.runtime
        } else {
            &self.common
        }
    }
}
