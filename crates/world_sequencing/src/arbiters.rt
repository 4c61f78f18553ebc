//! The sequencers of a testbench with their drivers (IEEE 1800.2-2020, Clause 15).

ghost use Rattle.std.specs.Prelude.{◌≡◌, ◌++◌, true, nat_eq, length, map, Some, None, OnOk, OnErr, IfOk, IfErr, option_and_then, option_copied, ◌<◌, IsSome, is_some};
ghost use Rattle.std.specs.HashMap.{get};
ghost use Rattle.std.specs.Option.{option_map_or};
ghost use Rattle.uvm_glob.specs.Faults.{unless};
ghost use Rattle.uvm_glob.specs.Lists.{first_given};
ghost use Rattle.uvm_sequencer.specs.Drivers.{grant_of, hand_of, is_try, loses_try};
ghost use Rattle.uvm_sequencer.specs.Sequencers.{after_leave, answer, candidates_at, choice_at, granted, is_live_at, lock_at, locked, ready_at, with_idle};
ghost use Rattle.bench_history.specs.Arbitration.{ends_ask};
ghost use Rattle.bench_history.specs.Dues.{calls_of_item};
ghost use Rattle.bench_history.specs.Refusals.{ask_refusal, done_refusal, item_refusal, lock_refusal, unlock_refusal};
ghost use Rattle.uvm_sequencer.specs.Passed.{IsPassed};
ghost use Rattle.uvm_sequencer.specs.Queues.{is_held};
ghost use Rattle.world_sequencing.specs.GrantIndexes.{AreKnown, IsKnown};
ghost use Rattle.world_sequencing.specs.Arbiters.{AddsArbiter, ChangesAt, ChangesEach, at_sequencer, asked_at, asked_in, ended_at, grabbed_if, lapsed_in, lapsed_with, locked_if, locked_in, lock_in, mode_of, new_arbiter, ready_in, requested_if, sent_if, served_in, unlocked_if};

use crate::grant_indexes::GrantIndex;
use bench_history::{DriverPort, DueCall};
use std::alloc::{AllocError, Global};
use std::collections::HashMap;
use std::marker::Model;
use uvm_object::{Call, Fatal, What};
use uvm_phase::Phase;
use uvm_sequencer::{Asked, Driver, How, Mode, Request, SeqFault, Sequencer};
use uvm_sequences::{SeqId, Sequences};
use uvm_tlm::Item;
use uvm_tree::NodeId;

/// A port, and the sequencer that it reaches.
#[derive(Clone, Copy)]
pub struct Reached {
    pub port: NodeId,
    pub sequencer: NodeId,
}

/// A sequencer and its driver: the component that asked there last, with the port and the phase (IEEE 1800.2-2020, Clause 15). The value in
/// contracts does not show which node is the driver's port: the wiring defines it.
#[derive(Drop)]
pub struct Arbiter {
    sequencer: Sequencer,
    driver: Option<DriverPort>,
}

impl Model for Arbiter {
    ghost use Rattle.std.specs.Prelude.{None};
    ghost use Rattle.world_sequencing.specs.Arbiters.{ArbiterValue};

    ghost Value = { ArbiterValue };

    ghost view = { λ a. record { sequencer = record a.sequencer { port = None }; driver = a.driver } };
}

impl Arbiter {
    // Creates a sequencer without a driver. Allocates no memory.
    fn new(alloc: Global, mode: Mode) -> Arbiter
        ensures { result ≡ new_arbiter mode }
    {
        Arbiter {
            sequencer: Sequencer::new(alloc, mode),
            driver: None,
        }
    }

    // Requests an item for the driver through its port. The sequences of the first `known` requests are blocked. Allocates no memory. Errors:
    // `AskedTwice` if the driver has already asked. An error changes nothing.
    fn ask(
        &mut self,
        sequences: &Sequences,
        known: usize,
        port: NodeId,
        driver: DriverPort,
        how: How,
    ) -> Result<Asked, Fatal>
        requires { IsPassed sequences.now.started self.old.sequencer known }
        ensures value { result ≡ unless (ask_refusal self.old.sequencer) (answer how (candidates_at sequences.now.started self.old.sequencer)) }
        ensures after { IfOk result (λ asked. self.new ≡ asked_at driver how asked self.old) }
        ensures unchanged { OnErr result (self.new ≡ self.old) }
    {
        self.sequencer.set_driver(port);
        match self.sequencer.ask_behind(sequences, port, how, known) {
            Ok(Asked::Waits) => {
                self.driver = Some(driver);
                Ok(Asked::Waits)
            }
            Ok(Asked::Nothing) => Ok(Asked::Nothing),
            Err(_) => Err(Fatal::AskedTwice),
        }
    }

    // Completes the current item of the driver and returns the sequence that sent it. Allocates no memory. Errors: `NothingOut` if the driver
    // has no item. An error changes nothing.
    fn done(&mut self, port: NodeId) -> Result<SeqId, Fatal>
        ensures ok { IfOk result (λ id. hand_of self.old.sequencer.driver ≡ Some id) }
        ensures after { OnOk result (self.new ≡ at_sequencer with_idle self.old) }
        ensures err { IfErr result (λ fatal. done_refusal self.old.sequencer ≡ Some fatal) }
        ensures unchanged { OnErr result (self.new ≡ self.old) }
    {
        self.sequencer.set_driver(port);
        match self.sequencer.done(port) {
            Ok(id) => Ok(id),
            Err(_) => Err(Fatal::NothingOut),
        }
    }

    // Requests to send an item, or returns why the sequence may not. Errors: out of memory.
    fn request(&mut self, id: SeqId, priority: u16) -> Result<Option<Fatal>, AllocError>
        requires { 0 < priority }
        ensures value { IfOk result (λ refusal. refusal ≡ item_refusal id self.old.sequencer) }
        ensures after { IfOk result (λ refusal. self.new ≡ requested_if refusal id priority self.old) }
    {
        match self.sequencer.request(id, priority) {
            Ok(()) => Ok(None),
            Err(SeqFault::Memory) => Err(AllocError),
            Err(_) => Ok(Some(Fatal::AskedTwice)),
        }
    }

    // Requests a lock, or returns why the sequence may not. Errors: out of memory.
    fn lock(&mut self, id: SeqId) -> Result<Option<Fatal>, AllocError>
        ensures value { IfOk result (λ refusal. refusal ≡ lock_refusal id self.old.sequencer) }
        ensures after { IfOk result (λ refusal. self.new ≡ locked_if refusal id self.old) }
    {
        match self.sequencer.lock(id) {
            Ok(()) => Ok(None),
            Err(SeqFault::Memory) => Err(AllocError),
            Err(_) => Ok(Some(Fatal::AskedTwice)),
        }
    }

    // Requests a lock before all other requests, or returns why the sequence may not. Errors: out of memory.
    fn grab(&mut self, id: SeqId) -> Result<Option<Fatal>, AllocError>
        ensures value { IfOk result (λ refusal. refusal ≡ lock_refusal id self.old.sequencer) }
        ensures after { IfOk result (λ refusal. self.new ≡ grabbed_if refusal id self.old) }
    {
        match self.sequencer.grab(id) {
            Ok(()) => Ok(None),
            Err(SeqFault::Memory) => Err(AllocError),
            Err(_) => Ok(Some(Fatal::AskedTwice)),
        }
    }

    // Releases the latest lock of a sequence, or returns why it may not. Allocates no memory.
    fn unlock(&mut self, id: SeqId) -> Option<Fatal>
        ensures value { result ≡ unlock_refusal id self.old.sequencer }
        ensures after { self.new ≡ unlocked_if result id self.old }
    {
        match self.sequencer.unlock(id) {
            Ok(()) => None,
            Err(_) => Some(Fatal::NotHeld),
        }
    }

    // Sends the item of a granted sequence and returns how the driver asked; returns `None` if the sequence is not granted. Allocates
    // nothing.
    fn send(&mut self, id: SeqId) -> Option<How>
        ensures value { result ≡ grant_of id self.old.sequencer.driver }
        ensures after { self.new ≡ sent_if result id self.old }
    {
        match self.sequencer.send(id) {
            Ok(how) => Some(how),
            Err(_) => None,
        }
    }

    // Removes the requests and locks of a sequence that ends. Returns whether the grant of a `Try` is withdrawn. Allocates no memory.
    fn leave(&mut self, id: SeqId) -> bool
        ensures value { result ≡ is_try (grant_of id self.old.sequencer.driver) }
        ensures after { self.new ≡ at_sequencer (after_leave id) self.old }
    {
        self.sequencer.leave(id)
    }

    // Removes the requests and locks of all ended sequences, and what the driver asked for in the phase that ends. Allocates no memory.
    fn end_phase(&mut self, sequences: &Sequences, phase: Phase)
        ensures { self.new ≡ ended_at phase sequences.now.steps self.old }
    {
        let ends = self.ends_with(phase);
        self.sequencer.end_phase(sequences, ends);
    }

    // Returns whether what the driver asked for ends with a phase: it asked in that phase, or it did not ask.
    fn ends_with(&self, phase: Phase) -> bool
        ensures { result ≡ ends_ask phase self.now.driver }
    {
        match self.driver {
            Some(
                DriverPort {
                    phase: Some(asked),
                    ..
                },
            ) => asked == phase,
            Some(_) => false,
            None => true,
        }
    }

    // Returns whether the end of a phase withdraws the grant of the driver's `try`.
    fn loses_try(&self, sequences: &Sequences, phase: Phase) -> bool
        ensures { result ≡ loses_try (ends_ask phase self.now.driver) (is_live_at sequences.now.steps) self.now.sequencer.driver }
    {
        self.sequencer.loses_try(sequences, self.ends_with(phase))
    }

    // Grants the lock of `id`, which is the next to grant. Allocates no memory.
    fn settle(&mut self, sequences: &Sequences, known: usize, id: SeqId)
        requires passed { IsPassed sequences.now.started self.old.sequencer known }
        requires leads { lock_at sequences.now.started self.old.sequencer ≡ Some id }
        ensures { self.new ≡ at_sequencer (locked id) self.old }
    {
        let _ = self.sequencer.settle_behind(sequences, known);
    }

    // Grants an item request and returns its sequence. The random number `word` decides if one is needed. Allocates no memory.
    fn choose(&mut self, sequences: &Sequences, known: usize, word: Option<u64>) -> SeqId
        requires passed { IsPassed sequences.now.started self.old.sequencer known }
        requires ready { ready_at sequences.now.started self.old.sequencer ≡ Some (is_some word) }
        ensures value { choice_at sequences.now.started self.old.sequencer word ≡ Some result }
        ensures after { self.new ≡ at_sequencer (granted result) self.old }
    {
        self.sequencer.choose_behind(sequences, known, word)
    }
}

impl Arbiter {
    /// Returns the requests that wait, in the order of the queue.
    pub fn requests(&self) -> &[Request]
        ensures { result.now ≡ self.now.sequencer.queue }
    {
        self.sequencer.requests()
    }

    /// Returns whether a sequence holds a lock.
    pub fn holds(&self, seq: SeqId) -> bool
        ensures { result ≡ is_held seq self.now.sequencer.holders }
    {
        self.sequencer.holds(seq)
    }

    /// Returns the state of the driver.
    pub fn state(&self) -> &Driver
        ensures { result.now ≡ self.now.sequencer.driver }
    {
        self.sequencer.driver()
    }

    /// Returns the driver: who asked last, through which port and in which phase.
    pub fn driver(&self) -> Option<DriverPort>
        ensures { result ≡ self.now.driver }
    {
        self.driver
    }
}

/// The sequencers of a testbench, by their nodes.
pub type Arbiters = HashMap<NodeId, Arbiter>;

/// Adds a sequencer at a node if `what` is one; otherwise does nothing. Errors: out of memory.
pub fn add_arbiter(
    arbiters: &mut Arbiters,
    alloc: Global,
    node: NodeId,
    what: What,
) -> Result<(), AllocError>
    ensures { OnOk result (AddsArbiter (mode_of what) node arbiters.old arbiters.new) }
{
    let What::Sequencer { mode } = what else {
        return Ok(());
    };
    match arbiters.insert(node, Arbiter::new(alloc, mode)) {
        Ok(_) => Ok(()),
        Err(_) => Err(AllocError),
    }
}

// Returns the sequence whose lock the sequencer at a node grants next. The sequences of its first `known` requests are blocked.
fn lock_at(arbiters: &Arbiters, sequences: &Sequences, known: usize, node: NodeId) -> Option<SeqId>
    requires { IsKnown sequences.now.started known (get nat_eq arbiters.now node) }
    ensures { result ≡ lock_in sequences.now.started (get nat_eq arbiters.now node) }
{
    let arbiter = arbiters.get(&node)?;
    arbiter.sequencer.leading_lock_behind(sequences, known)
}

/// Returns the first sequencer in the grant index that can grant a lock, with the sequence that gets it; `None` if there is none. Does not
/// examine requests that the grant index knows to be blocked.
pub fn first_locked(
    arbiters: &Arbiters,
    sequences: &Sequences,
    grant_index: &GrantIndex,
) -> Option<(NodeId, SeqId)>
    requires { AreKnown sequences.now.started arbiters.now grant_index.now }
    ensures { result ≡ first_given (map (locked_in sequences.now.started arbiters.now) grant_index.now.nodes.items) }
{
    let nodes = grant_index.nodes.as_slice();
    for node in nodes {
        if let Some(id) = lock_at(arbiters, sequences, grant_index.known(*node), *node) {
            return Some((*node, id));
        }
    }
    None
}

// Returns `None` if the sequencer at a node cannot serve its driver, otherwise whether a random number decides. The sequences of its first
// `known` requests are blocked.
fn ready_at(arbiters: &Arbiters, sequences: &Sequences, known: usize, node: NodeId) -> Option<bool>
    requires { IsKnown sequences.now.started known (get nat_eq arbiters.now node) }
    ensures { result ≡ ready_in sequences.now.started (get nat_eq arbiters.now node) }
{
    let arbiter = arbiters.get(&node)?;
    arbiter.sequencer.ready_behind(sequences, known)
}

/// Returns the first sequencer in the grant index that can serve its driver, with whether a random number decides; `None` if there is none.
/// Does not examine requests that the grant index knows to be blocked.
pub fn first_served(
    arbiters: &Arbiters,
    sequences: &Sequences,
    grant_index: &GrantIndex,
) -> Option<(NodeId, bool)>
    requires { AreKnown sequences.now.started arbiters.now grant_index.now }
    ensures { result ≡ first_given (map (served_in sequences.now.started arbiters.now) grant_index.now.nodes.items) }
{
    let nodes = grant_index.nodes.as_slice();
    for node in nodes {
        if let Some(drawn) = ready_at(arbiters, sequences, grant_index.known(*node), *node) {
            return Some((*node, drawn));
        }
    }
    None
}

/// Returns how many requests precede the first request of a sequence that is not blocked; 0 if the node has no sequencer. The sequences of
/// the first `known` requests are blocked.
pub fn passed_at(arbiters: &Arbiters, sequences: &Sequences, known: usize, node: NodeId) -> usize
    requires { IsKnown sequences.now.started known (get nat_eq arbiters.now node) }
    ensures { IsKnown sequences.now.started result (get nat_eq arbiters.now node) }
{
    match arbiters.get(&node) {
        Some(arbiter) => arbiter.sequencer.passed(sequences, known),
        None => 0,
    }
}

/// Returns the sequencer at a node, if there is one.
pub fn arbiter_at(arbiters: &Arbiters, node: NodeId) -> Option<&Arbiter>
    ensures { option_copied result ≡ get nat_eq arbiters.now node }
{
    arbiters.get(&node)
}

/// Returns how many item requests and locks wait at a node; 0 if the node has no sequencer.
pub fn requests_at(arbiters: &Arbiters, node: NodeId) -> usize
    ensures { result ≡ option_map_or (λ a. length a.sequencer.queue) (get nat_eq arbiters.now node) 0 }
{
    match arbiters.get(&node) {
        Some(arbiter) => arbiter.sequencer.waiting(),
        None => 0,
    }
}

/// Returns the driver of a sequencer, with its port and phase; `None` if no component asked there.
pub fn driver_at(arbiters: &Arbiters, node: NodeId) -> Option<DriverPort>
    ensures { result ≡ option_and_then (λ a. a.driver) (get nat_eq arbiters.now node) }
{
    arbiters.get(&node)?.driver
}

/// Requests an item for a driver. The sequences of the first `known` requests are blocked. Allocates no memory. Errors: `AskedTwice` if the
/// driver has already asked. An error changes nothing.
pub fn ask_at(
    arbiters: &mut Arbiters,
    sequences: &Sequences,
    known: usize,
    reached: &Reached,
    driver: DriverPort,
    how: How,
) -> Result<Asked, Fatal>
    requires there { IsSome (get nat_eq arbiters.old reached.now.sequencer) }
    requires known { IsKnown sequences.now.started known (get nat_eq arbiters.old reached.now.sequencer) }
    ensures value { result ≡ asked_in sequences.now.started how (get nat_eq arbiters.old reached.now.sequencer) }
    ensures after { IfOk result (λ asked. ChangesAt reached.now.sequencer (asked_at driver how asked) arbiters.old arbiters.new) }
    ensures unchanged { OnErr result (ChangesAt reached.now.sequencer (λ a. a) arbiters.old arbiters.new) }
{
    match arbiters.get_mut(&reached.sequencer) {
        Some(arbiter) => arbiter.ask(sequences, known, reached.port, driver, how),
        None => unreachable!(),
    }
}

/// Completes the current item of the driver and returns the sequence that sent it. Allocates no memory. Errors: `NothingOut` if the driver
/// has no item. An error changes nothing.
pub fn done_at(arbiters: &mut Arbiters, reached: &Reached) -> Result<SeqId, Fatal>
    requires { IsSome (get nat_eq arbiters.old reached.now.sequencer) }
    ensures ok { IfOk result (λ id. option_and_then (λ a. hand_of a.sequencer.driver) (get nat_eq arbiters.old reached.now.sequencer) ≡ Some id) }
    ensures after { OnOk result (ChangesAt reached.now.sequencer (at_sequencer with_idle) arbiters.old arbiters.new) }
    ensures err { IfErr result (λ fatal. option_and_then (λ a. done_refusal a.sequencer) (get nat_eq arbiters.old reached.now.sequencer) ≡ Some fatal) }
    ensures unchanged { OnErr result (ChangesAt reached.now.sequencer (λ a. a) arbiters.old arbiters.new) }
{
    match arbiters.get_mut(&reached.sequencer) {
        Some(arbiter) => arbiter.done(reached.port),
        None => unreachable!(),
    }
}

/// Requests to send an item for a sequence; returns `AskedTwice`, and changes nothing, if its item request is already waiting or granted.
/// Errors: out of memory.
pub fn request_at(
    arbiters: &mut Arbiters,
    node: NodeId,
    id: SeqId,
    priority: u16,
) -> Result<Option<Fatal>, AllocError>
    requires { 0 < priority }
    ensures value { IfOk result (λ refusal. refusal ≡ option_and_then (λ a. item_refusal id a.sequencer) (get nat_eq arbiters.old node)) }
    ensures after { IfOk result (λ refusal. ChangesAt node (requested_if refusal id priority) arbiters.old arbiters.new) }
{
    match arbiters.get_mut(&node) {
        Some(arbiter) => arbiter.request(id, priority),
        None => Ok(None),
    }
}

/// Requests a lock for a sequence; returns `AskedTwice`, and changes nothing, if the sequence already waits for a lock. Errors: out of
/// memory.
pub fn lock_for(
    arbiters: &mut Arbiters,
    node: NodeId,
    id: SeqId,
) -> Result<Option<Fatal>, AllocError>
    ensures value { IfOk result (λ refusal. refusal ≡ option_and_then (λ a. lock_refusal id a.sequencer) (get nat_eq arbiters.old node)) }
    ensures after { IfOk result (λ refusal. ChangesAt node (locked_if refusal id) arbiters.old arbiters.new) }
{
    match arbiters.get_mut(&node) {
        Some(arbiter) => arbiter.lock(id),
        None => Ok(None),
    }
}

/// Requests a lock for a sequence before all other requests; returns `AskedTwice`, and changes nothing, if the sequence already waits for a
/// lock. Errors: out of memory.
pub fn grab_for(
    arbiters: &mut Arbiters,
    node: NodeId,
    id: SeqId,
) -> Result<Option<Fatal>, AllocError>
    ensures value { IfOk result (λ refusal. refusal ≡ option_and_then (λ a. lock_refusal id a.sequencer) (get nat_eq arbiters.old node)) }
    ensures after { IfOk result (λ refusal. ChangesAt node (grabbed_if refusal id) arbiters.old arbiters.new) }
{
    match arbiters.get_mut(&node) {
        Some(arbiter) => arbiter.grab(id),
        None => Ok(None),
    }
}

/// Releases the latest lock of a sequence; returns `NotHeld`, and changes nothing, if it holds none. Allocates no memory.
pub fn unlock_at(arbiters: &mut Arbiters, node: NodeId, id: SeqId) -> Option<Fatal>
    ensures value { result ≡ option_and_then (λ a. unlock_refusal id a.sequencer) (get nat_eq arbiters.old node) }
    ensures after { ChangesAt node (unlocked_if result id) arbiters.old arbiters.new }
{
    match arbiters.get_mut(&node) {
        Some(arbiter) => arbiter.unlock(id),
        None => None,
    }
}

/// Sends the item of a granted sequence and returns how the driver asked; returns `None`, and changes nothing, if the sequence is not
/// granted. Allocates no memory.
pub fn send_at(arbiters: &mut Arbiters, node: NodeId, id: SeqId) -> Option<How>
    ensures value { result ≡ option_and_then (λ a. grant_of id a.sequencer.driver) (get nat_eq arbiters.old node) }
    ensures after { ChangesAt node (sent_if result id) arbiters.old arbiters.new }
{
    match arbiters.get_mut(&node) {
        Some(arbiter) => arbiter.send(id),
        None => None,
    }
}

/// Removes the requests and locks of a sequence that ends, and returns whether the grant of a `Try` is withdrawn. Allocates no memory.
pub fn leave_at(arbiters: &mut Arbiters, node: NodeId, id: SeqId) -> bool
    ensures value { result ≡ is_try (option_and_then (λ a. grant_of id a.sequencer.driver) (get nat_eq arbiters.old node)) }
    ensures after { ChangesAt node (at_sequencer (after_leave id)) arbiters.old arbiters.new }
{
    match arbiters.get_mut(&node) {
        Some(arbiter) => arbiter.leave(id),
        None => false,
    }
}

/// Grants the lock of `id`, which is the next to grant at the node. The sequences of the first `known` requests are blocked. Allocates
/// nothing.
pub fn settle_at(
    arbiters: &mut Arbiters,
    sequences: &Sequences,
    known: usize,
    node: NodeId,
    id: SeqId,
)
    requires known { IsKnown sequences.now.started known (get nat_eq arbiters.old node) }
    requires leads { lock_in sequences.now.started (get nat_eq arbiters.old node) ≡ Some id }
    ensures { ChangesAt node (at_sequencer (locked id)) arbiters.old arbiters.new }
{
    if let Some(arbiter) = arbiters.get_mut(&node) {
        arbiter.settle(sequences, known, id);
    }
}

/// Grants an item request at a node and returns its sequence. The random number `word` decides if one is needed. The sequences of the first
/// `known` requests are blocked. Allocates no memory.
pub fn choose_at(
    arbiters: &mut Arbiters,
    sequences: &Sequences,
    known: usize,
    node: NodeId,
    word: Option<u64>,
) -> SeqId
    requires known { IsKnown sequences.now.started known (get nat_eq arbiters.old node) }
    requires ready { ready_in sequences.now.started (get nat_eq arbiters.old node) ≡ Some (is_some word) }
    ensures value { option_and_then (λ a. choice_at sequences.now.started a.sequencer word) (get nat_eq arbiters.old node) ≡ Some result }
    ensures after { ChangesAt node (at_sequencer (granted result)) arbiters.old arbiters.new }
{
    match arbiters.get_mut(&node) {
        Some(arbiter) => arbiter.choose(sequences, known, word),
        None => unreachable!(),
    }
}

/// Removes, at each sequencer, the requests and locks of ended sequences, and what the driver asked for in the phase that ends. Allocates
/// nothing. Cost: O(n) in the waiting requests and locks.
pub fn end_phase(arbiters: &mut Arbiters, sequences: &Sequences, phase: Phase)
    ensures { ChangesEach (ended_at phase sequences.now.steps) arbiters.old arbiters.new }
{
    arbiters.retain(|_, arbiter| {
        arbiter.end_phase(sequences, phase);
        true
    });
}

/// Returns the calls to the drivers whose `try` loses its grant with the end of a phase, in the order of `nodes`. Each call says that there
/// is no item. Errors: out of memory.
pub fn lapsed_with(
    alloc: Global,
    arbiters: &Arbiters,
    sequences: &Sequences,
    nodes: &[NodeId],
    phase: Phase,
) -> Result<Vec<DueCall>, AllocError>
    ensures { IfOk result (λ calls. calls.items ≡ lapsed_with phase sequences.now.steps arbiters.now nodes.now) }
{
    let mut calls = Vec::new(alloc);
    for node in nodes {
        push_lapsed(arbiters, sequences, *node, phase, &mut calls)?;
    }
    Ok(calls)
}

// Appends the call to the driver at a node, if the end of the phase withdraws the grant of its `try`. Errors: out of memory.
fn push_lapsed(
    arbiters: &Arbiters,
    sequences: &Sequences,
    node: NodeId,
    phase: Phase,
    calls: &mut Vec<DueCall>,
) -> Result<(), AllocError>
    ensures { OnOk result (calls.new.items ≡ calls.old.items ++ lapsed_in phase sequences.now.steps (get nat_eq arbiters.now node)) }
{
    match arbiters.get(&node) {
        Some(arbiter) if arbiter.loses_try(sequences, phase) => {
            push_item(calls, arbiter.driver, None)
        }
        _ => Ok(()),
    }
}

/// Appends the call that gives a driver an item, or none, in the phase in which it asked; does nothing without a driver. Errors: out of
/// memory.
pub fn push_item(
    calls: &mut Vec<DueCall>,
    driver: Option<DriverPort>,
    item: Option<Item>,
) -> Result<(), AllocError>
    ensures { OnOk result (calls.new.items ≡ calls.old.items ++ calls_of_item driver item) }
{
    if let Some(DriverPort { who, name, phase }) = driver {
        let call = Call::NextItem { port: name, item };
        calls.push(DueCall { who, call, phase })?;
    }
    Ok(())
}
