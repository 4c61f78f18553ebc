//! The world: its fields, its creation and its state.

ghost use Rattle.std.specs.Prelude.{◌≡◌, [], IfOk, true, IsSome, length, nat_le};
ghost use Rattle.bench_history.specs.Limits.{log_limit};
ghost use Rattle.bench_history.specs.History.{test_creation};
ghost use Rattle.world_services.specs.Services.{ServicesMatch};
ghost use Rattle.bench_history.specs.Next.{IsLegal};
ghost use Rattle.bench_history.specs.Sequences.{leaving_of};
ghost use Rattle.bench_world.specs.Worlds.{Nothing, WorldValue};

use crate::pending::Pending;
use bench_history::limits::log_limit;
use bench_script::{Script, factory_of};
use std::alloc::{AllocError, Global};
use std::marker::Model;
use uvm_object::{Log, StoredAct, Who};
use world_entries::making::test_creation;
use world_services::services::Services;

/// A legal log with the script of the run and the services. While `sound()` is true, the state of each service follows from the log.
pub struct World {
    pub(crate) alloc: Global,
    pub(crate) script: Script,
    pub(crate) log: Log,
    pub(crate) services: Services,
    // The creation of the test, which is the first action of the run.
    pub(crate) creation: StoredAct,
    // The creation or start that waits for its object, or the call that waits for its answer.
    pub(crate) pending: Option<Pending>,
    // The sequences that the newest entry has ended.
    pub(crate) leaving: Vec<Who>,
    pub(crate) sound: bool,
}

// (Written by hand, so that crates that use it need no proof of the drop of its fields.)
impl Drop for World {
    fn drop(self) {
        let World {
            alloc: _,
            script: _,
            log: _,
            services: _,
            creation: _,
            pending: _,
            leaving: _,
            sound: _,
        } = self;
    }
}

impl Model for World {
    ghost use Rattle.std.specs.Prelude.{◌≡◌};
    ghost use Rattle.bench_world.specs.Worlds.{WorldValue, IsWorld, standing_of};
    ghost use Rattle.bench_history.specs.History.{test_creation};

    ghost Value = { WorldValue };

    ghost view = { λ w. record { script = w.script; history = w.log.entries; sound = w.sound; standing = standing_of w.pending } };

    ghost invariant = { λ w. (w.creation ≡ test_creation w.script) × IsWorld w.sound w.script w.log w.services w.pending w.leaving.items };
}

impl World {
    /// The largest number of actions of an answer that is performed. A longer answer is logged, and ends with a note.
    pub const MAX_ACTS: usize = 64;

    /// Creates the world of a script that has a test, with an empty log. Errors: out of memory.
    pub fn new(alloc: Global, script: Script) -> Result<World, AllocError>
        requires { IsSome script.test }
        ensures { IfOk result (λ world. world ≡ record { script = script; history = []; sound = true; standing = Nothing }) }
    {
        let factory = factory_of(alloc, &script)?;
        let creation = StoredAct::new(alloc, test_creation(&script, &factory))?;
        let services = Services::given(alloc, &script, factory)?;
        Ok(World::before(alloc, script, creation, services))
    }

    // Creates the world before its first entry.
    fn before(alloc: Global, script: Script, creation: StoredAct, services: Services) -> World
        requires creation { creation ≡ test_creation script }
        requires services { ServicesMatch script [] services }
        ensures { result ≡ record { script = script; history = []; sound = true; standing = Nothing } }
    {
        let log = Log::new(alloc, log_limit(&script));
        World {
            alloc,
            script,
            log,
            services,
            creation,
            pending: None,
            leaving: Vec::new(alloc),
            sound: true,
        }
    }

    /// Returns whether the services agree with the log. They do not after an entry or an action failed (out of memory).
    pub fn sound(&self) -> bool
        ensures { result ≡ self.now.sound }
    {
        self.sound
    }

    /// Returns the script.
    pub fn script(&self) -> &Script
        ensures { result.now ≡ self.now.script }
    {
        &self.script
    }

    /// Returns a reference to the log, which is legal. Its limit in entries is that of the script's version.
    pub fn log(&self) -> &Log
        ensures entries { result.now.entries ≡ self.now.history }
        ensures legal { IsLegal self.now.script self.now.history }
        ensures limit { result.now.limit ≡ log_limit self.now.script }
    {
        &self.log
    }

    /// Returns whether the log has as many entries as it may have.
    pub fn is_full(&self) -> bool
        ensures { result ≡ nat_le (log_limit self.now.script) (length self.now.history) }
    {
        self.log.is_full()
    }

    /// Returns the allocator of the world.
    pub fn alloc(&self) -> Global {
        self.alloc
    }

    /// Returns the services, whose state follows from the log (`world_views` reads it). Requires a consistent world.
    pub fn services(&self) -> &Services
        requires { self.now.sound ≡ true }
        ensures { ServicesMatch self.now.script self.now.history result.now }
    {
        &self.services
    }

    /// Returns the sequences that the newest entry has ended, in ascending order of number (Clause 14). This is one that has completed its
    /// last step, or all that were active in the phase that has ended. Requires a consistent world.
    pub fn leaving(&self) -> &[Who]
        requires { self.now.sound ≡ true }
        ensures { result.now ≡ leaving_of self.now.history }
    {
        self.leaving.as_slice()
    }
}
