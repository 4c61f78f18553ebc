//! The built-in objects, of all types.

ghost use Rattle.std.specs.Prelude.{◌≡◌};

use crate::boxed::Boxed;
use crate::bus_agent::BusAgent;
use crate::bus_driver::BusDriver;
use crate::bus_env::BusEnv;
use crate::bus_mem::BusMem;
use crate::bus_mem_bad::BusMemBad;
use crate::bus_monitor::BusMonitor;
use crate::bus_scoreboard::BusScoreboard;
use crate::bus_test::BusTest;
use crate::idle::Idle;
use crate::loud::Loud;
use crate::pulse::Pulse;
use crate::seq_burst::SeqBurst;
use crate::seq_pair::SeqPair;
use crate::seq_smoke::SeqSmoke;
use crate::sleeper::Sleeper;
use crate::slow_driver::SlowDriver;
use crate::spinner::Spinner;
use std::alloc::{AllocError, Global};
use uvm_glob::Name;
use uvm_object::{Acts, Call, UvmObject};

/// An object of a built-in type. Its view and its relation are those of the object that it holds.
#[derive(Drop)]
pub enum BusObject {
    /// An object of the type `bus_agent`.
    BusAgent(BusAgent),
    /// An object of the type `bus_driver`.
    BusDriver(BusDriver),
    /// An object of the type `bus_env`.
    BusEnv(BusEnv),
    /// An object of the type `bus_mem`.
    BusMem(Boxed<BusMem>),
    /// An object of the type `bus_mem_bad`.
    BusMemBad(Boxed<BusMemBad>),
    /// An object of the type `bus_monitor`.
    BusMonitor(BusMonitor),
    /// An object of the type `bus_scoreboard`.
    BusScoreboard(Boxed<BusScoreboard>),
    /// An object of the type `bus_test`.
    BusTest(BusTest),
    /// An object of the type `idle`.
    Idle(Idle),
    /// An object of the type `loud`.
    Loud(Loud),
    /// An object of the type `pulse`.
    Pulse(Pulse),
    /// An object of the type `seq_burst`.
    SeqBurst(SeqBurst),
    /// An object of the type `seq_pair`.
    SeqPair(SeqPair),
    /// An object of the type `seq_smoke`.
    SeqSmoke(SeqSmoke),
    /// An object of the type `sleeper`.
    Sleeper(Boxed<Sleeper>),
    /// An object of the type `slow_driver`.
    SlowDriver(Boxed<SlowDriver>),
    /// An object of the type `spinner`.
    Spinner(Spinner),
}

impl BusObject {
    ghost use Rattle.bus_objects.specs.Objects.{large_named, object_named, part_named, sequence_named, small_named};

    /// Returns a new object of the type with this name. Returns `None` if that type is not built in. Allocates no memory.
    pub fn of_type(type_name: &Name) -> Option<BusObject>
        ensures { result ≡ object_named type_name.now }
    {
        if let Some(object) = BusObject::large_of_type(type_name) {
            return Some(object);
        }
        BusObject::small_of_type(type_name)
    }

    // Returns a new object of the type with this name, if objects of that type move to the heap at their first call (`Boxed`).
    fn large_of_type(type_name: &Name) -> Option<BusObject>
        ensures { result ≡ large_named type_name.now }
    {
        if let Some(bus_mem) = BusMem::of_type(type_name) {
            return Some(BusObject::BusMem(bus_mem));
        }
        if let Some(bus_mem_bad) = BusMemBad::of_type(type_name) {
            return Some(BusObject::BusMemBad(bus_mem_bad));
        }
        if let Some(bus_scoreboard) = BusScoreboard::of_type(type_name) {
            return Some(BusObject::BusScoreboard(bus_scoreboard));
        }
        if let Some(sleeper) = Sleeper::of_type(type_name) {
            return Some(BusObject::Sleeper(sleeper));
        }
        SlowDriver::of_type(type_name).map(BusObject::SlowDriver)
    }

    // Returns a new object of the type with this name, if objects of that type are held in place.
    fn small_of_type(type_name: &Name) -> Option<BusObject>
        ensures { result ≡ small_named type_name.now }
    {
        if let Some(part) = BusObject::part_of_type(type_name) {
            return Some(part);
        }
        if let Some(sequence) = BusObject::sequence_of_type(type_name) {
            return Some(sequence);
        }
        if let Some(idle) = Idle::of_type(type_name) {
            return Some(BusObject::Idle(idle));
        }
        if let Some(loud) = Loud::of_type(type_name) {
            return Some(BusObject::Loud(loud));
        }
        if let Some(pulse) = Pulse::of_type(type_name) {
            return Some(BusObject::Pulse(pulse));
        }
        Spinner::of_type(type_name).map(BusObject::Spinner)
    }

    // Returns a new object of the type with this name, if that is the type of a component of the bus without state.
    fn part_of_type(type_name: &Name) -> Option<BusObject>
        ensures { result ≡ part_named type_name.now }
    {
        if let Some(bus_agent) = BusAgent::of_type(type_name) {
            return Some(BusObject::BusAgent(bus_agent));
        }
        if let Some(bus_driver) = BusDriver::of_type(type_name) {
            return Some(BusObject::BusDriver(bus_driver));
        }
        if let Some(bus_env) = BusEnv::of_type(type_name) {
            return Some(BusObject::BusEnv(bus_env));
        }
        if let Some(bus_monitor) = BusMonitor::of_type(type_name) {
            return Some(BusObject::BusMonitor(bus_monitor));
        }
        BusTest::of_type(type_name).map(BusObject::BusTest)
    }

    // Returns a new object of the type with this name, if that is a sequence type.
    fn sequence_of_type(type_name: &Name) -> Option<BusObject>
        ensures { result ≡ sequence_named type_name.now }
    {
        if let Some(seq_burst) = SeqBurst::of_type(type_name) {
            return Some(BusObject::SeqBurst(seq_burst));
        }
        if let Some(seq_pair) = SeqPair::of_type(type_name) {
            return Some(BusObject::SeqPair(seq_pair));
        }
        SeqSmoke::of_type(type_name).map(BusObject::SeqSmoke)
    }
}

impl UvmObject for BusObject {
    ghost use Rattle.bus_objects.specs.Objects.{name_of, says_of, view_of};

    ghost view = { view_of };

    ghost name = { name_of };

    ghost says = { says_of };

    fn type_name(&self) -> &Name {
        match self {
            BusObject::BusAgent(bus_agent) => bus_agent.type_name(),
            BusObject::BusDriver(bus_driver) => bus_driver.type_name(),
            BusObject::BusEnv(bus_env) => bus_env.type_name(),
            BusObject::BusMem(bus_mem) => bus_mem.type_name(),
            BusObject::BusMemBad(bus_mem_bad) => bus_mem_bad.type_name(),
            BusObject::BusMonitor(bus_monitor) => bus_monitor.type_name(),
            BusObject::BusScoreboard(bus_scoreboard) => bus_scoreboard.type_name(),
            BusObject::BusTest(bus_test) => bus_test.type_name(),
            BusObject::Idle(idle) => idle.type_name(),
            BusObject::Loud(loud) => loud.type_name(),
            BusObject::Pulse(pulse) => pulse.type_name(),
            BusObject::SeqBurst(seq_burst) => seq_burst.type_name(),
            BusObject::SeqPair(seq_pair) => seq_pair.type_name(),
            BusObject::SeqSmoke(seq_smoke) => seq_smoke.type_name(),
            BusObject::Sleeper(sleeper) => sleeper.type_name(),
            BusObject::SlowDriver(slow_driver) => slow_driver.type_name(),
            BusObject::Spinner(spinner) => spinner.type_name(),
        }
    }

    fn hear(&mut self, alloc: Global, call: &Call) -> Result<Acts, AllocError> {
        match self {
            BusObject::BusAgent(bus_agent) => bus_agent.hear(alloc, call),
            BusObject::BusDriver(bus_driver) => bus_driver.hear(alloc, call),
            BusObject::BusEnv(bus_env) => bus_env.hear(alloc, call),
            BusObject::BusMem(bus_mem) => bus_mem.hear(alloc, call),
            BusObject::BusMemBad(bus_mem_bad) => bus_mem_bad.hear(alloc, call),
            BusObject::BusMonitor(bus_monitor) => bus_monitor.hear(alloc, call),
            BusObject::BusScoreboard(bus_scoreboard) => bus_scoreboard.hear(alloc, call),
            BusObject::BusTest(bus_test) => bus_test.hear(alloc, call),
            BusObject::Idle(idle) => idle.hear(alloc, call),
            BusObject::Loud(loud) => loud.hear(alloc, call),
            BusObject::Pulse(pulse) => pulse.hear(alloc, call),
            BusObject::SeqBurst(seq_burst) => seq_burst.hear(alloc, call),
            BusObject::SeqPair(seq_pair) => seq_pair.hear(alloc, call),
            BusObject::SeqSmoke(seq_smoke) => seq_smoke.hear(alloc, call),
            BusObject::Sleeper(sleeper) => sleeper.hear(alloc, call),
            BusObject::SlowDriver(slow_driver) => slow_driver.hear(alloc, call),
            BusObject::Spinner(spinner) => spinner.hear(alloc, call),
        }
    }
}
