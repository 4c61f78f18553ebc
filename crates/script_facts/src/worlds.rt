//! The state of a run whose core has not run out of memory.

use bench_core::{Core, World, services, status};
use bench_history::{EventTarget, Requester};
use bench_script::Script;
use std::marker::Model;
use uvm_factory::Factory;
use uvm_object::EventCall;
use uvm_phase::{Agenda, Phase};
use uvm_report::{Fate, Reports};
use uvm_sequences::Sequences;
use uvm_tlm::{Fifo, Wiring};
use uvm_tree::{NodeId, Tree};
use world_sequencing::arbiters::Arbiter;

/// The state of a run. Its queries can be called, since the state is consistent.
#[derive(Drop)]
pub struct State<'a> {
    world: &'a World,
}

impl<'a> Model for State<'a> {
    ghost use Rattle.std.specs.Prelude.{◌≡◌, true};
    ghost use Rattle.bench_world.specs.Worlds.{WorldValue};

    ghost Value = { WorldValue };

    ghost view = { λ state. state.world.now };

    ghost invariant = { λ state. state.world.now.sound ≡ true };
}

impl<'a> State<'a> {
    /// Returns the state of a run, or `None` if its core ran out of memory.
    pub fn of_core(core: &'a Core) -> Option<State<'a>> {
        match core.world() {
            Some(world) => Some(State { world }),
            None => None,
        }
    }

    pub fn script(&self) -> &'a Script {
        self.world.script()
    }

    pub fn tree(&self) -> &'a Tree {
        services::tree(self.world)
    }

    pub fn wiring(&self) -> &'a Wiring {
        services::wiring(self.world)
    }

    pub fn sequences(&self) -> &'a Sequences {
        services::sequences(self.world)
    }

    pub fn factory(&self) -> &'a Factory {
        services::factory(self.world)
    }

    pub fn reports(&self) -> &'a Reports {
        services::reports(self.world)
    }

    pub fn agenda(&self) -> &'a Agenda<EventTarget, EventCall> {
        services::agenda(self.world)
    }

    pub fn fifo(&self, node: NodeId) -> Option<&'a Fifo<Requester>> {
        services::fifo(self.world, node)
    }

    pub fn sequencer(&self, node: NodeId) -> Option<&'a Arbiter> {
        services::sequencer(self.world, node)
    }

    pub fn has_objection(&self, phase: Phase) -> bool {
        status::objection_stands(self.world, phase)
    }

    pub fn raised(&self, phase: Phase, node: NodeId) -> u64 {
        status::source_in(self.world, phase, node)
    }

    pub fn newest_fate(&self) -> Option<Fate> {
        status::newest_fate(self.world)
    }
}
