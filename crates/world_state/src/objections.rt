//! The objections of the phases that take time. The run-time phases share one objection until an action in one of them separates them.

ghost use Rattle.std.specs.Prelude.{◌≡◌, ◌≢◌, ◌∷◌, ◌++◌, ◌+◌, ◌<◌, ◌≤◌, ◌^◌, ℕ, All, nat_lt, false, true, [], length, slice_get, IsTrue, IsOk, IfOk, OnOk, OnErr};
ghost use Rattle.std.specs.Option.{option_to_list};
ghost use Rattle.script_tables.specs.Drains.{CanDrain};
ghost use Rattle.uvm_phase.specs.Phases.{is_task};
ghost use Rattle.uvm_objection.specs.Nodes.{held_of, due_of, is_known, new_node, source_of, top, with_drain};
ghost use Rattle.uvm_objection.specs.Totals.{drains_begun, drains_ended, standing, total};
ghost use Rattle.world_state.specs.Phased.{HasNode, HasOwn, OthersStay, OthersStayAt, SameNodes, after_drain, after_drop, after_raise, given_by, nodes_at, nodes_in, place_in, spare_at, spare_in};

use crate::faults::DropFault;
use script_tables::Drain;
use std::alloc::{AllocError, Global};
use std::marker::Model;
use uvm_glob::Path;
use uvm_objection::{Due, Objection};
use uvm_phase::Phase;
use uvm_tree::NodeId;

// The number of phases that take time.
const TASKS: usize = 13;

/// The objections of the phases that take time (IEEE 1800.2-2020, 10.5): what is raised at the nodes of a tree, and what is delayed there by
/// the drain time. A phase that takes no time has no objection: a call for such a phase uses that of the run phase.
///
/// Contracts see the objections as a list, that of the run phase first, together with the drain times that the script gives. All run-time
/// phases share the second objection until one of them separates them. It does so by a raise, a drop, the end of a drain, `set_drain`, or a
/// drain time that the script gives for it. Then each run-time phase has its own, in their order, as a copy of the second. This allocates
/// once; until then only two objections are stored.
#[derive(Drop)]
pub struct Objections {
    // The objection of the run phase, then the one of all run-time phases, or one for each of them in their order.
    each: Vec<Objection>,
    // The drain times that the script gives.
    given: Vec<Drain>,
}

impl Model for Objections {
    ghost use Rattle.world_state.specs.Phased.{AreKept, ObjectionsValue};

    ghost Value = { ObjectionsValue };

    ghost view = { λ o. record { each = o.each.items; given = o.given.items } };

    ghost invariant = { λ o. AreKept o.each.items o.given.items };
}

impl Objections {
    /// Creates the objections of the top node alone, at which nothing is raised, with the drain times that a script gives. A node that is added
    /// has the drain times that are given for its path. Errors: out of memory.
    pub fn new(alloc: Global, given: &[Drain]) -> Result<Objections, AllocError>
        requires { All CanDrain given.now }
        ensures nodes { IfOk result (λ objections. (phase : Phase) → nodes_in objections phase ≡ top ∷ []) }
        ensures given { IfOk result (λ objections. objections.given ≡ given.now) }
    {
        let mut objections = Objections::shared(alloc)?;
        for drain in given {
            objections.take_in(drain)?;
        }
        Ok(objections)
    }

    // Creates the objections of the top node alone, with no drain times. Errors: out of memory.
    fn shared(alloc: Global) -> Result<Objections, AllocError>
        ensures nodes { IfOk result (λ objections. (phase : Phase) → nodes_in objections phase ≡ top ∷ []) }
        ensures given { IfOk result (λ objections. objections.given ≡ []) }
    {
        let each = vec![in alloc; Objection::new(alloc), Objection::new(alloc)]?;
        let given = Vec::new(alloc);
        Ok(Objections { each, given })
    }

    // Adds one more drain time, and separates the run-time phases if it is for one of them. Errors: out of memory. An error changes no node.
    fn take_in(&mut self, drain: &Drain) -> Result<(), AllocError>
        requires { CanDrain drain.now }
        ensures nodes { SameNodes self.old self.new }
        ensures given { OnOk result (self.new.given ≡ self.old.given ++ drain.now ∷ []) }
    {
        self.own_place(drain.phase)?;
        let copied = drain.copy()?;
        self.given.push(copied)?;
        Ok(())
    }

    /// Reserves capacity for one more node in each objection, so that the next `add` allocates nothing; it never reduces reserved capacity.
    /// Errors: out of memory, only if no capacity was reserved. An error changes no node.
    pub fn reserve(&mut self) -> Result<(), AllocError>
        ensures nodes { SameNodes self.old self.new }
        ensures spare { OnOk result ((phase : Phase) → 0 < spare_in self.new phase) }
        ensures room { ((phase : Phase) → 0 < spare_in self.old phase) → IsOk result }
        ensures kept { (phase : Phase) → spare_in self.old phase ≤ spare_in self.new phase }
        ensures given { self.new.given ≡ self.old.given }
    {
        for place in 0..self.each.len() {
            self.reserve_at(place)?;
        }
        Ok(())
    }

    /// Adds an unknown node under a known parent to each objection. Nothing is raised at it; its drain time is the one that the script gives for
    /// its path, otherwise 0. Errors: out of memory, only if no capacity was reserved. An error adds nothing.
    pub fn add(&mut self, node: NodeId, parent: NodeId, path: &Path) -> Result<(), AllocError>
        requires unknown { (phase : Phase) → is_known node (nodes_in self.old phase) ≡ false }
        requires parent { (phase : Phase) → IsTrue (is_known parent (nodes_in self.old phase)) }
        ensures ok { OnOk result (HasNode node parent path.now self.old self.new) }
        ensures err { OnErr result (SameNodes self.old self.new) }
        ensures room { ((phase : Phase) → 0 < spare_in self.old phase) → IsOk result }
        ensures given { self.new.given ≡ self.old.given }
    {
        self.reserve()?;
        self.add_to_each(node, parent);
        for row in 0..self.given.len() {
            self.give(row, node, path);
        }
        Ok(())
    }

    // Adds a node with no drain time to each objection, in its reserved capacity.
    fn add_to_each(&mut self, node: NodeId, parent: NodeId)
        requires unknown { (phase : Phase) → is_known node (nodes_in self.old phase) ≡ false }
        requires parent { (phase : Phase) → IsTrue (is_known parent (nodes_in self.old phase)) }
        requires room { (phase : Phase) → 0 < spare_in self.old phase }
        ensures nodes { (phase : Phase) → nodes_in self.new phase ≡ nodes_in self.old phase ++ new_node node parent ∷ [] }
        ensures given { self.new.given ≡ self.old.given }
    {
        for place in 0..self.each.len() {
            self.add_at(place, node, parent);
        }
    }

    // Sets the drain time of the node at `path` to that of a row of the script, if the row is for this path.
    fn give(&mut self, row: usize, node: NodeId, path: &Path)
        requires within { row < length self.old.given }
        requires known { (phase : Phase) → IsTrue (is_known node (nodes_in self.old phase)) }
        ensures nodes { (phase : Phase) → is_task phase ≡ true → nodes_in self.new phase ≡ given_by (slice_get self.old.given row) phase path.now node (nodes_in self.old phase) }
        ensures known { (phase : Phase) → IsTrue (is_known node (nodes_in self.new phase)) }
        ensures given { self.new.given ≡ self.old.given }
    {
        let Some(drain) = self.given.get(row) else {
            unreachable!()
        };
        if drain.path == *path {
            let (place, ticks) = (place_in(drain.phase), drain.ticks);
            self.set_drain_at(place, node, ticks);
        }
    }

    /// Sets the drain time of a known node in each objection, in ticks, at most 10^15. Allocates nothing.
    pub fn set_each_drain(&mut self, node: NodeId, ticks: u64)
        requires known { (phase : Phase) → IsTrue (is_known node (nodes_in self.old phase)) }
        requires limit { ticks ≤ 10 ^ 15 }
        ensures nodes { (phase : Phase) → nodes_in self.new phase ≡ with_drain node ticks (nodes_in self.old phase) }
        ensures given { self.new.given ≡ self.old.given }
    {
        for place in 0..self.each.len() {
            self.set_drain_at(place, node, ticks);
        }
    }

    // Reserves capacity for one more node in the objection at a place. Errors: out of memory. An error changes no node.
    fn reserve_at(&mut self, place: usize) -> Result<(), AllocError>
        requires { place < length self.old.each }
        ensures nodes { nodes_at self.new.each place ≡ nodes_at self.old.each place }
        ensures spare { OnOk result (0 < spare_at self.new.each place) }
        ensures room { 0 < spare_at self.old.each place → IsOk result }
        ensures kept { spare_at self.old.each place ≤ spare_at self.new.each place }
        ensures others { OthersStayAt place self.old.each self.new.each }
        ensures given { self.new.given ≡ self.old.given }
        ensures count { length self.new.each ≡ length self.old.each }
    {
        let Some(objection) = self.each.get_mut(place) else {
            unreachable!()
        };
        objection.reserve()
    }

    // Adds a node to the objection at a place, in its reserved capacity.
    fn add_at(&mut self, place: usize, node: NodeId, parent: NodeId)
        requires within { place < length self.old.each }
        requires unknown { is_known node (nodes_at self.old.each place) ≡ false }
        requires parent { IsTrue (is_known parent (nodes_at self.old.each place)) }
        requires room { 0 < spare_at self.old.each place }
        ensures nodes { nodes_at self.new.each place ≡ nodes_at self.old.each place ++ new_node node parent ∷ [] }
        ensures others { OthersStayAt place self.old.each self.new.each }
        ensures given { self.new.given ≡ self.old.given }
        ensures count { length self.new.each ≡ length self.old.each }
    {
        let Some(objection) = self.each.get_mut(place) else {
            unreachable!()
        };
        let Ok(()) = objection.add(node, parent) else {
            unreachable!()
        };
    }

    // Sets the drain time of a node in the objection at a place, in ticks, at most 10^15.
    fn set_drain_at(&mut self, place: usize, node: NodeId, ticks: u64)
        requires within { place < length self.old.each }
        requires known { IsTrue (is_known node (nodes_at self.old.each place)) }
        requires limit { ticks ≤ 10 ^ 15 }
        ensures nodes { nodes_at self.new.each place ≡ with_drain node ticks (nodes_at self.old.each place) }
        ensures others { OthersStayAt place self.old.each self.new.each }
        ensures given { self.new.given ≡ self.old.given }
        ensures count { length self.new.each ≡ length self.old.each }
    {
        let Some(objection) = self.each.get_mut(place) else {
            unreachable!()
        };
        objection.set_drain(node, ticks);
    }

    /// Raises `count` objections at a known node in a phase, and returns the node whose drain this ended, if it ended one. Requires a total of at
    /// most 10^18 after the raise. Errors: out of memory, only when the run-time phases are separated. An error changes no node.
    pub fn raise(
        &mut self,
        phase: Phase,
        node: NodeId,
        count: u16,
    ) -> Result<Option<NodeId>, AllocError>
        requires known { IsTrue (is_known node (nodes_in self.old phase)) }
        requires limit { total (nodes_in self.old phase) 0 + count ≤ 10 ^ 18 }
        ensures nodes { OnOk result ((time : ℕ) → nodes_in self.new phase ≡ after_raise time node count (nodes_in self.old phase)) }
        ensures began { OnOk result (drains_begun (nodes_in self.old phase) (nodes_in self.new phase) ≡ []) }
        ensures ended { IfOk result (λ ended. drains_ended (nodes_in self.old phase) (nodes_in self.new phase) ≡ option_to_list ended) }
        ensures others { OthersStay phase self.old self.new }
        ensures given { self.new.given ≡ self.old.given }
        ensures err { OnErr result (SameNodes self.old self.new) }
        ensures room { HasOwn phase self.old → IsOk result }
    {
        let place = self.own_place(phase)?;
        let Some(objection) = self.each.get_mut(place) else {
            unreachable!()
        };
        Ok(objection.raise(node, count))
    }

    /// Drops `count` objections at a known node in a phase, at `now` ticks, at most 10^18. Returns the drain that this began, if it began one.
    /// Errors: `BelowZero` if fewer are raised at the node, which changes nothing; `Memory` if out of memory, only when the run-time phases are
    /// separated, which changes no node.
    pub fn drop(
        &mut self,
        phase: Phase,
        node: NodeId,
        count: u16,
        now: u64,
    ) -> Result<Option<Due>, DropFault>
        requires known { IsTrue (is_known node (nodes_in self.old phase)) }
        requires limit { now ≤ 10 ^ 18 }
        ensures ok { OnOk result (count ≤ source_of node (nodes_in self.old phase)) }
        ensures nodes { OnOk result (nodes_in self.new phase ≡ after_drop now node count (nodes_in self.old phase)) }
        ensures began { IfOk result (λ due. drains_begun (nodes_in self.old phase) (nodes_in self.new phase) ≡ option_to_list due) }
        ensures ended { OnOk result (drains_ended (nodes_in self.old phase) (nodes_in self.new phase) ≡ []) }
        ensures below { result ≡ Err DropFault.BelowZero → source_of node (nodes_in self.old phase) < count }
        ensures unchanged { result ≡ Err DropFault.BelowZero → self.new ≡ self.old }
        ensures memory { result ≡ Err DropFault.Memory → count ≤ source_of node (nodes_in self.old phase) }
        ensures others { OthersStay phase self.old self.new }
        ensures given { self.new.given ≡ self.old.given }
        ensures err { OnErr result (SameNodes self.old self.new) }
        ensures room { HasOwn phase self.old → result ≢ Err DropFault.Memory }
    {
        if self.objection(phase).source(node) < u64::from(count) {
            return Err(DropFault::BelowZero);
        }
        let place = self.own_place(phase)?;
        let Some(objection) = self.each.get_mut(place) else {
            unreachable!()
        };
        let Ok(due) = objection.drop(node, count, now) else {
            unreachable!()
        };
        Ok(due)
    }

    /// Ends the drain of a known node that delays an objection of a phase. Returns the drain that this began above the node, if it began one.
    /// Errors: out of memory, only when the run-time phases are separated. An error changes no node.
    pub fn drained(&mut self, phase: Phase, node: NodeId) -> Result<Option<Due>, AllocError>
        requires known { IsTrue (is_known node (nodes_in self.old phase)) }
        requires held { 0 < held_of node (nodes_in self.old phase) }
        requires limit { due_of node (nodes_in self.old phase) ≤ 10 ^ 18 }
        ensures nodes { OnOk result (nodes_in self.new phase ≡ after_drain node (nodes_in self.old phase)) }
        ensures began { IfOk result (λ due. drains_begun (nodes_in self.old phase) (nodes_in self.new phase) ≡ option_to_list due) }
        ensures ended { OnOk result (drains_ended (nodes_in self.old phase) (nodes_in self.new phase) ≡ node ∷ []) }
        ensures others { OthersStay phase self.old self.new }
        ensures given { self.new.given ≡ self.old.given }
        ensures err { OnErr result (SameNodes self.old self.new) }
        ensures room { HasOwn phase self.old → IsOk result }
    {
        let place = self.own_place(phase)?;
        let Some(objection) = self.each.get_mut(place) else {
            unreachable!()
        };
        Ok(objection.drained(node))
    }

    /// Sets the drain time of a known node in the objection of a phase, in ticks, at most 10^15. Errors: out of memory, only when the run-time
    /// phases are separated. An error changes no node.
    pub fn set_drain(&mut self, phase: Phase, node: NodeId, ticks: u64) -> Result<(), AllocError>
        requires known { IsTrue (is_known node (nodes_in self.old phase)) }
        requires limit { ticks ≤ 10 ^ 15 }
        ensures nodes { OnOk result (nodes_in self.new phase ≡ with_drain node ticks (nodes_in self.old phase)) }
        ensures others { OthersStay phase self.old self.new }
        ensures given { self.new.given ≡ self.old.given }
        ensures err { OnErr result (SameNodes self.old self.new) }
        ensures room { HasOwn phase self.old → IsOk result }
    {
        let place = self.own_place(phase)?;
        let Some(objection) = self.each.get_mut(place) else {
            unreachable!()
        };
        objection.set_drain(node, ticks);
        Ok(())
    }

    /// Returns the total of a known node in the objection of a phase.
    pub fn total(&self, phase: Phase, node: NodeId) -> u64
        requires { IsTrue (is_known node (nodes_in self.now phase)) }
        ensures { result ≡ total (nodes_in self.now phase) node }
    {
        self.objection(phase).total(node)
    }

    /// Returns the source of a known node in the objection of a phase: what is raised at the node itself.
    pub fn source(&self, phase: Phase, node: NodeId) -> u64
        requires { IsTrue (is_known node (nodes_in self.now phase)) }
        ensures { result ≡ source_of node (nodes_in self.now phase) }
    {
        self.objection(phase).source(node)
    }

    /// Returns whether something is raised at the top node or below it, or delayed at the top node by the drain time, in a phase.
    pub fn stands(&self, phase: Phase) -> bool
        requires { IsTrue (is_known 0 (nodes_in self.now phase)) }
        ensures { result ≡ nat_lt 0 (standing (nodes_in self.now phase)) }
    {
        let objection = self.objection(phase);
        objection.total(NodeId::TOP) > 0 || objection.held(NodeId::TOP) > 0
    }

    // Separates the run-time phases if `phase` is one of them, and returns the place of its objection, which no other phase shares then.
    // Errors: out of memory. An error changes no node.
    fn own_place(&mut self, phase: Phase) -> Result<usize, AllocError>
        ensures nodes { SameNodes self.old self.new }
        ensures place { IfOk result (λ place. place ≡ place_in phase) }
        ensures within { IfOk result (λ place. place < length self.new.each) }
        ensures own { OnOk result (HasOwn phase self.new) }
        ensures room { HasOwn phase self.old → IsOk result }
        ensures given { self.new.given ≡ self.old.given }
    {
        let place = place_in(phase);
        if self.each.len() < TASKS && place > 0 {
            self.part()?;
        }
        Ok(place)
    }

    // Gives each run-time phase its own objection. Errors: out of memory. An error gives some phases their own, and changes no node.
    fn part(&mut self) -> Result<(), AllocError>
        ensures nodes { (place : ℕ) → nodes_at self.new.each place ≡ nodes_at self.old.each place }
        ensures count { OnOk result (length self.new.each ≡ 13) }
        ensures given { self.new.given ≡ self.old.given }
    {
        for _ in self.each.len()..TASKS {
            self.copy_second()?;
        }
        Ok(())
    }

    // Appends a copy of the second objection. Errors: out of memory. An error adds none.
    fn copy_second(&mut self) -> Result<(), AllocError>
        requires { length self.old.each < 13 }
        ensures nodes { (place : ℕ) → nodes_at self.new.each place ≡ nodes_at self.old.each place }
        ensures count { OnOk result (length self.new.each ≡ length self.old.each + 1) }
        ensures given { self.new.given ≡ self.old.given }
    {
        let Some(second) = self.each.get(1) else {
            unreachable!()
        };
        let copied = second.copy()?;
        self.each.push(copied)?;
        Ok(())
    }

    // Returns the objection of a phase, its own or the one that it shares.
    fn objection(&self, phase: Phase) -> &Objection
        ensures { result.now.nodes ≡ nodes_in self.now phase }
    {
        let Some(objection) = self.each.get(place_in(phase)).or(self.each.get(1)) else {
            unreachable!()
        };
        objection
    }
}

// Returns the place of a phase among the objections.
fn place_in(phase: Phase) -> usize
    ensures place { result ≡ place_in phase }
    ensures within { result < 13 }
{
    usize::from(phase.number()).saturating_sub(8)
}
