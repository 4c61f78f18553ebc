//! The next misconnected port that a world reports (IEEE 1800.2-2020, Clause 12).

ghost use Rattle.std.specs.Prelude.{◌≡◌, true, IfOk, OnOk, OnErr};
ghost use Rattle.bench_history.specs.Laws.{is_at_check};
ghost use Rattle.bench_history.specs.Wires.{next_unsound};
ghost use Rattle.bench_world.specs.Worlds.{broken};

use crate::worlds::World;
use bench_history::laws;
use std::alloc::AllocError;
use uvm_object::Fatal;
use uvm_tree::{NodeId, laws as trees};
use world_wiring::connections::{close_wiring, unsound_behind};

impl World {
    /// Returns the next misconnected port in path order, with the fatal error to report of it. Closes the wiring before the first port is
    /// checked. Requires a consistent world in connect. There nothing can be granted or transferred, no action is left, no event is due
    /// now, and each component had its call. Errors: out of memory; the log is unchanged, and the world is no longer consistent.
    #[tactic(auto, unfolding(bench_history::specs::Wires::next_unsound))]
    pub fn next_unsound(&mut self) -> Result<Option<(NodeId, Fatal)>, AllocError>
        requires sound { self.old.sound ≡ true }
        requires at_check { is_at_check self.old.script self.old.history ≡ true }
        ensures value { IfOk result (λ port. port ≡ next_unsound self.old.history) }
        ensures unchanged { OnOk result (self.new ≡ self.old) }
        ensures err { OnErr result (self.new ≡ broken self.old) }
    {
        // Each node that can be connected is in the path order once.
        laws::connect_follows_build();
        trees::path_order_is_in_order();
        match close_wiring(&mut self.services.wiring, &self.services.tree, self.alloc) {
            Ok(()) => Ok(unsound_behind(self.log.last(), &self.services.wiring)),
            Err(_) => Err(self.fail()),
        }
    }
}
