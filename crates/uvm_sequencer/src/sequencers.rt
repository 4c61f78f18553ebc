//! The sequencer.

ghost use Rattle.std.specs.Prelude.{◌≡◌, ◌+◌, ◌<◌, ◌≤◌, ◌^◌, ◌&&◌, ◌==◌, false, true, not, drop, slice_get, None, Some, OnOk, OnErr, OnSome, IfOk, IfErr, IfSome, IfNone, is_some, nat_lt, filter, length, vec_capacity};
ghost use Rattle.std.specs.List.{list_all};
ghost use Rattle.std.specs.Option.{option_and_then, IsSomeAnd};
ghost use Rattle.uvm_glob.specs.Faults.{unless};
ghost use Rattle.uvm_sequencer.specs.Choices.{choice, is_strict};
ghost use Rattle.uvm_sequencer.specs.Contending.{without_place};
ghost use Rattle.uvm_sequencer.specs.Drivers.{grant_of, is_try, loses_try};
ghost use Rattle.uvm_sequencer.specs.Faults.{or_fault, refusal};
ghost use Rattle.uvm_sequencer.specs.Passed.{IsPassed};
ghost use Rattle.uvm_sequencer.specs.Queues.{AreSingle, all_released, candidates, is_blocked, is_held, is_item, lock_in, released};
ghost use Rattle.uvm_sequencer.specs.Marks.{has_priority};
ghost use Rattle.uvm_sequencer.specs.Sequencers.{after_ask, after_leave, after_phase, after_send, answer, ask_fault, candidates_at, choice_at, done_by, granted, is_driver, is_live_at, lock_at, lock_fault, locked, new_sequencer, ready_at, request_fault, unlocked, unlocked_by, with_grab, with_idle, with_item, with_lock, with_port};

use crate::choices::Choices;
use crate::drivers::{Asked, Driver, How};
use crate::faults::SeqFault;
use crate::modes::Mode;
use crate::queues::Queue;
use crate::requests::Request;
use crate::scans;
use std::alloc::Global;
use std::marker::Model;
use uvm_sequencer_holders::Holders;
use uvm_sequences::{SeqId, Sequences};
use uvm_tree::NodeId;

/// A sequencer (IEEE 1800.2-2020, Clause 15): it decides which sequence may send an item to the driver next. Sequences request
/// items, locks and grabs. The driver requests an item, the sequencer grants a sequence, this sequence sends its item, and the
/// driver completes it. A sequence that holds the sequencer blocks all others except those under it. Several sequences hold it
/// only if each is under those that were granted before. A sequence waits for at most one item and one lock.
///
/// In contracts, the value is the mode, the port that drives the sequencer, the state of the driver, the queue and the holders.
/// The requests are in the order of the queue, the holders in the order of granting. A grab goes to the front of the queue, a
/// lock request or an item request to its end.
///
/// Cost: `request` and `lock` scan no requests, and `leave` scans none if the sequence has none. A grant scans the queue from the
/// front until it is decided, which takes the whole queue if priorities count. It then removes the granted request at its place.
/// To check whether a sequence is blocked takes a visit of its ancestors. The calls that end in `_behind` start the scan after
/// requests whose sequences are known to be blocked, as `passed` counts them. Only `request`, `lock` and `grab` allocate memory.
pub struct Sequencer {
    mode: Mode,
    port: Option<NodeId>,
    driver: Driver,
    queue: Queue,
    // There is reserved capacity for each lock that waits.
    holders: Holders,
}

// (Written by hand, so that crates that use a sequencer need no proof about the drop of its fields.)
impl Drop for Sequencer {
    fn drop(self) {
        let Sequencer {
            mode: _,
            port: _,
            driver: _,
            queue: _,
            holders: _,
        } = self;
    }
}

impl Model for Sequencer {
    ghost use Rattle.uvm_sequencer.specs.Sequencers.{SequencerValue};

    ghost Value = { SequencerValue };

    ghost use Rattle.uvm_sequencer.specs.Rooms.{IsSequencer};

    ghost view = { λ s. record { mode = s.mode; port = s.port; driver = s.driver; queue = s.queue; holders = s.holders.list } };

    ghost invariant = { λ s. IsSequencer s };
}

impl Sequencer {
    /// Creates a sequencer without a driver, requests or holders. Allocates no memory.
    pub fn new(alloc: Global, mode: Mode) -> Sequencer
        ensures { result ≡ new_sequencer mode }
    {
        Sequencer {
            mode,
            port: None,
            driver: Driver::Idle,
            queue: Queue::new(alloc),
            holders: Holders::new(alloc),
        }
    }

    /// Sets the port that drives the sequencer.
    pub fn set_driver(&mut self, port: NodeId)
        ensures { self.new ≡ with_port port self.old }
    {
        self.port = Some(port);
    }

    /// Requests to send an item (the standard's `wait_for_grant`). Requires a priority of at least 1. Errors: `Twice` if an item
    /// request of the sequence waits, or the sequence is granted and has not sent; out of memory (`Memory`). An error changes
    /// nothing.
    pub fn request(&mut self, seq: SeqId, priority: u16) -> Result<(), SeqFault>
        requires { 0 < priority }
        ensures ok { OnOk result (request_fault self.old seq ≡ None) }
        ensures after { OnOk result (self.new ≡ with_item seq priority self.old) }
        ensures err { IfErr result (λ fault. request_fault self.old seq ≡ refusal fault) }
        ensures unchanged { OnErr result (self.new ≡ self.old) }
    {
        if self.queue.has_item(seq) || self.driver.grant(seq).is_some() {
            return Err(SeqFault::Twice);
        }
        self.queue.put_item(seq, priority)?;
        Ok(())
    }

    /// Requests to hold the sequencer, after all other requests (the standard's `lock`). `settle` grants the lock. Errors:
    /// `Twice` if a lock request of the sequence waits; out of memory (`Memory`). An error changes nothing.
    pub fn lock(&mut self, seq: SeqId) -> Result<(), SeqFault>
        ensures ok { OnOk result (lock_fault self.old seq ≡ None) }
        ensures after { OnOk result (self.new ≡ with_lock seq self.old) }
        ensures err { IfErr result (λ fault. lock_fault self.old seq ≡ refusal fault) }
        ensures unchanged { OnErr result (self.new ≡ self.old) }
    {
        if self.queue.has_lock(seq) {
            return Err(SeqFault::Twice);
        }
        // Capacity for each request that waits, and for this one.
        self.holders.reserve(self.queue.len() + 1)?;
        self.queue.put_lock(seq)?;
        Ok(())
    }

    /// Requests to hold the sequencer, as `lock`, but before all other requests (the standard's `grab`). The errors are those of
    /// `lock`.
    pub fn grab(&mut self, seq: SeqId) -> Result<(), SeqFault>
        ensures ok { OnOk result (lock_fault self.old seq ≡ None) }
        ensures after { OnOk result (self.new ≡ with_grab seq self.old) }
        ensures err { IfErr result (λ fault. lock_fault self.old seq ≡ refusal fault) }
        ensures unchanged { OnErr result (self.new ≡ self.old) }
    {
        if self.queue.has_lock(seq) {
            return Err(SeqFault::Twice);
        }
        // Capacity for each request that waits, and for this one.
        self.holders.reserve(self.queue.len() + 1)?;
        self.queue.put_grab(seq)?;
        Ok(())
    }

    /// Releases the latest lock of a sequence (the standard's `unlock` and `ungrab`). Errors: `NotHeld` if it holds none. An
    /// error changes nothing.
    pub fn unlock(&mut self, seq: SeqId) -> Result<(), SeqFault>
        ensures value { result ≡ unlocked_by self.old seq }
        ensures ok { OnOk result (self.new ≡ unlocked seq self.old) }
        ensures unchanged { OnErr result (self.new ≡ self.old) }
    {
        if !self.holders.release(seq) {
            return Err(SeqFault::NotHeld);
        }
        Ok(())
    }

    /// Requests an item for the driver. Returns `Nothing` if there is no candidate for a `Try`; otherwise the driver waits.
    /// Errors: `NoDriver` if `port` does not drive the sequencer; `Twice` if the driver is not idle. An error changes nothing.
    pub fn ask(&mut self, sequences: &Sequences, port: NodeId, how: How) -> Result<Asked, SeqFault>
        ensures value { result ≡ unless (ask_fault self.old port) (answer how (candidates_at sequences.now.started self.old)) }
        ensures ok { IfOk result (λ asked. self.new ≡ after_ask how asked self.old) }
        ensures unchanged { OnErr result (self.new ≡ self.old) }
    {
        self.ask_behind(sequences, port, how, 0)
    }

    /// Requests an item for the driver, as `ask`. Requires that the sequences of the first `known` requests are blocked: the scan
    /// of the queue starts after them.
    pub fn ask_behind(
        &mut self,
        sequences: &Sequences,
        port: NodeId,
        how: How,
        known: usize,
    ) -> Result<Asked, SeqFault>
        requires { IsPassed sequences.now.started self.old known }
        ensures value { result ≡ unless (ask_fault self.old port) (answer how (candidates_at sequences.now.started self.old)) }
        ensures ok { IfOk result (λ asked. self.new ≡ after_ask how asked self.old) }
        ensures unchanged { OnErr result (self.new ≡ self.old) }
    {
        if !self.is_driver(port) {
            return Err(SeqFault::NoDriver);
        }
        if !self.driver.is_idle() {
            return Err(SeqFault::Twice);
        }
        if how == How::Try && !self.has_candidate(sequences, known) {
            return Ok(Asked::Nothing);
        }
        self.driver = Driver::Waiting(how);
        Ok(Asked::Waits)
    }

    /// Sends the item of a granted sequence and returns how the driver requested it (the standard's `send_request`). The driver
    /// then holds the item, except for a `Get`, whose item is done. Errors: `NotGranted` if the sequence is not granted or has
    /// already sent. An error changes nothing.
    pub fn send(&mut self, seq: SeqId) -> Result<How, SeqFault>
        ensures value { result ≡ or_fault (grant_of seq self.old.driver) SeqFault.NotGranted }
        ensures ok { IfOk result (λ how. self.new ≡ after_send seq how self.old) }
        ensures unchanged { OnErr result (self.new ≡ self.old) }
    {
        let Some(how) = self.driver.grant(seq) else {
            return Err(SeqFault::NotGranted);
        };
        self.driver = match how {
            How::Next | How::Try => Driver::InHand(seq),
            How::Get => Driver::Idle,
        };
        Ok(how)
    }

    /// Completes the driver's current item (`item_done`, Clause 15) and returns the sequence that sent it. Errors: `NoDriver` if
    /// `port` is not the driver's port; `NothingOut` if the driver has no item. An error changes nothing.
    pub fn done(&mut self, port: NodeId) -> Result<SeqId, SeqFault>
        ensures value { result ≡ done_by self.old port }
        ensures ok { OnOk result (self.new ≡ with_idle self.old) }
        ensures unchanged { OnErr result (self.new ≡ self.old) }
    {
        if !self.is_driver(port) {
            return Err(SeqFault::NoDriver);
        }
        let Some(seq) = self.driver.hand() else {
            return Err(SeqFault::NothingOut);
        };
        self.driver = Driver::Idle;
        Ok(seq)
    }

    /// Ends the request of the driver, as at the end of a phase. The driver is then idle, whatever it waited for or held, and a
    /// grant whose item is not sent is withdrawn.
    pub fn end_ask(&mut self)
        ensures { self.new ≡ with_idle self.old }
    {
        self.driver = Driver::Idle;
    }

    /// Removes the requests and all locks of a sequence that ends, and withdraws its grant if its item is not sent. Returns
    /// whether this was the grant of a `Try`, which is then answered; for any other request the driver waits again. An item that
    /// the driver holds stays.
    pub fn leave(&mut self, seq: SeqId) -> bool
        ensures value { result ≡ is_try (grant_of seq self.old.driver) }
        ensures after { self.new ≡ after_leave seq self.old }
    {
        self.queue.leave(seq);
        self.holders.release_all(seq);
        let grant = self.driver.grant(seq);
        self.driver.lapse(grant)
    }

    /// Returns whether `end_phase` withdraws the grant of a `Try`. `ends` states whether the request of the driver ends too.
    pub fn loses_try(&self, sequences: &Sequences, ends: bool) -> bool
        ensures { result ≡ loses_try ends (is_live_at sequences.now.steps) self.now.driver }
    {
        !ends && matches!(self.driver.lost(sequences), Some(How::Try))
    }

    /// Removes the requests and all locks of sequences that have ended, when a phase ends. If `ends` is true, the request of the
    /// driver ends too, as by `end_ask`. Otherwise a grant of such a sequence whose item is not sent is withdrawn, as by `leave`,
    /// and an item that the driver holds stays. Returns whether the grant of a `Try` was withdrawn, which is false if `ends` is
    /// true. Cost: one scan of the queue and the holders.
    pub fn end_phase(&mut self, sequences: &Sequences, ends: bool) -> bool
        ensures value { result ≡ loses_try ends (is_live_at sequences.now.steps) self.old.driver }
        ensures after { self.new ≡ after_phase sequences.now.steps ends self.old }
    {
        self.queue.keep_live(sequences);
        self.holders.keep_live(sequences);
        if ends {
            self.driver = Driver::Idle;
            return false;
        }
        let lost = self.driver.lost(sequences);
        self.driver.lapse(lost)
    }

    /// Grants the leading lock and returns its sequence. Returns `None` and changes nothing if no lock leads. The first request
    /// of the queue whose sequence is not blocked leads. A grant ends exactly one wait.
    pub fn settle(&mut self, sequences: &Sequences) -> Option<SeqId>
        ensures value { result ≡ lock_at sequences.now.started self.old }
        ensures some { IfSome result (λ seq. self.new ≡ locked seq self.old) }
        ensures none { IfNone result (self.new ≡ self.old) }
        ensures fewer { OnSome result (length self.new.queue + 1 ≡ length self.old.queue) }
    {
        self.settle_behind(sequences, 0)
    }

    /// Grants the leading lock, as `settle`. Requires that the sequences of the first `known` requests are blocked: the scan of
    /// the queue starts after them.
    pub fn settle_behind(&mut self, sequences: &Sequences, known: usize) -> Option<SeqId>
        requires { IsPassed sequences.now.started self.old known }
        ensures value { result ≡ lock_at sequences.now.started self.old }
        ensures some { IfSome result (λ seq. self.new ≡ locked seq self.old) }
        ensures none { IfNone result (self.new ≡ self.old) }
        ensures fewer { OnSome result (length self.new.queue + 1 ≡ length self.old.queue) }
    {
        let place = self.leading(sequences, known);
        let seq = self.queue.take_lock(place)?;
        self.holders.push(seq);
        Some(seq)
    }

    /// Returns the sequence of the leading lock, which `settle` grants; `None` if no lock leads.
    pub fn leading_lock(&self, sequences: &Sequences) -> Option<SeqId>
        ensures { result ≡ lock_at sequences.now.started self.now }
    {
        self.leading_lock_behind(sequences, 0)
    }

    /// Returns the sequence of the leading lock, as `leading_lock`. Requires that the sequences of the first `known` requests are
    /// blocked: the scan of the queue starts after them.
    pub fn leading_lock_behind(&self, sequences: &Sequences, known: usize) -> Option<SeqId>
        requires { IsPassed sequences.now.started self.now known }
        ensures { result ≡ lock_at sequences.now.started self.now }
    {
        self.queue.lock_at(self.leading(sequences, known))
    }

    /// Returns the number of requests before the first whose sequence is not blocked, or of all requests if there is none.
    /// Requires that the sequences of the first `known` requests are blocked. The scan starts after them, and ends at the first
    /// request that is not blocked.
    pub fn passed(&self, sequences: &Sequences, known: usize) -> usize
        requires { IsPassed sequences.now.started self.now known }
        ensures passed { IsPassed sequences.now.started self.now result }
        ensures more { known ≤ result }
        ensures next { IfSome (slice_get self.now.queue result) (λ request. is_blocked sequences.now.started self.now.holders request.seq ≡ false) }
    {
        let rest = self.queue.behind(known);
        known + scans::count_passed(sequences, &self.holders, rest)
    }

    /// Returns the item requests and lock requests that wait, in the order of the queue.
    pub fn requests(&self) -> &[Request]
        ensures { result.now ≡ self.now.queue }
    {
        self.queue.requests()
    }

    /// Returns whether a sequence holds a lock.
    pub fn holds(&self, seq: SeqId) -> bool
        ensures { result ≡ is_held seq self.now.holders }
    {
        self.holders.holds(seq)
    }

    /// Returns the state of the driver.
    pub fn driver(&self) -> &Driver
        ensures { result.now ≡ self.now.driver }
    {
        &self.driver
    }

    /// Returns the number of item requests and lock requests that wait. Each sequence has at most one of each.
    pub fn waiting(&self) -> usize
        ensures count { result ≡ length self.now.queue }
        ensures single { AreSingle self.now.queue }
    {
        self.queue.len()
    }

    /// Returns the number of candidates, which are the item requests of sequences that are not blocked.
    pub fn candidates(&self, sequences: &Sequences) -> usize
        ensures { result ≡ length (candidates_at sequences.now.started self.now) }
    {
        scans::count_candidates(sequences, &self.holders, self.queue.behind(0))
    }

    /// Returns whether a random number decides what `choose` grants: in a random mode, if there are at least two candidates to
    /// choose from. Returns `None` if `choose` can grant nothing: the driver does not wait, or there is no candidate.
    pub fn ready(&self, sequences: &Sequences) -> Option<bool>
        ensures { result ≡ ready_at sequences.now.started self.now }
    {
        self.ready_behind(sequences, 0)
    }

    /// Returns the result of `ready`. Requires that the sequences of the first `known` requests are blocked: the scan of the
    /// queue starts after them.
    pub fn ready_behind(&self, sequences: &Sequences, known: usize) -> Option<bool>
        requires { IsPassed sequences.now.started self.now known }
        ensures { result ≡ ready_at sequences.now.started self.now }
    {
        if self.driver.wait().is_none() || !self.has_candidate(sequences, known) {
            return None;
        }
        Some(self.choices(sequences, known).is_drawn(self.mode))
    }

    /// Grants an item request and returns its sequence. Requires that `ready` is not `None`, and that `word` is a random number
    /// if `ready` is `Some(true)` and `None` otherwise. The grant ends exactly one wait.
    pub fn choose(&mut self, sequences: &Sequences, word: Option<u64>) -> SeqId
        requires { ready_at sequences.now.started self.old ≡ Some (is_some word) }
        ensures value { Some result ≡ choice_at sequences.now.started self.old word }
        ensures after { self.new ≡ granted result self.old }
        ensures fewer { length self.new.queue + 1 ≡ length self.old.queue }
    {
        self.choose_behind(sequences, 0, word)
    }

    /// Grants an item request, as `choose`. Requires that the sequences of the first `known` requests are blocked: the scan of
    /// the queue starts after them.
    pub fn choose_behind(&mut self, sequences: &Sequences, known: usize, word: Option<u64>) -> SeqId
        requires known { IsPassed sequences.now.started self.old known }
        requires ready { ready_at sequences.now.started self.old ≡ Some (is_some word) }
        ensures value { Some result ≡ choice_at sequences.now.started self.old word }
        ensures after { self.new ≡ granted result self.old }
        ensures fewer { length self.new.queue + 1 ≡ length self.old.queue }
    {
        let Some(how) = self.driver.wait() else {
            unreachable!()
        };
        let place = self.chosen(sequences, known, word);
        let seq = self.queue.take_item(place);
        self.driver = Driver::Granted(seq, how);
        seq
    }

    // Returns the place of the leading request; the length of the queue if there is none.
    fn leading(&self, sequences: &Sequences, known: usize) -> usize
        requires { IsPassed sequences.now.started self.now known }
        ensures { option_and_then lock_in (slice_get self.now.queue result) ≡ lock_at sequences.now.started self.now }
    {
        self.passed(sequences, known)
    }

    // Returns the place of the item request to grant.
    fn chosen(&self, sequences: &Sequences, known: usize, word: Option<u64>) -> usize
        requires known { IsPassed sequences.now.started self.now known }
        requires ready { ready_at sequences.now.started self.now ≡ Some (is_some word) }
        ensures value { slice_get self.now.queue result ≡ choice self.now.mode (candidates_at sequences.now.started self.now) word }
        ensures item { IsSomeAnd (slice_get self.now.queue result) (λ request. is_item request ≡ true) }
    {
        let choices = self.choices(sequences, known);
        let Some(place) = choices.chosen(self.mode, word, self.are_all_contenders()) else {
            unreachable!()
        };
        known + place
    }

    // Returns whether each request is a contender because there are no holders, no lock request waits, and the mode is not
    // strict.
    fn are_all_contenders(&self) -> bool
        ensures { result ≡ (not (is_strict self.now.mode) && ((length self.now.holders == 0) && list_all is_item self.now.queue)) }
    {
        !self.mode.is_strict() && self.holders.is_empty() && self.queue.are_items()
    }

    // Returns whether there is a candidate.
    fn has_candidate(&self, sequences: &Sequences, known: usize) -> bool
        requires { IsPassed sequences.now.started self.now known }
        ensures { result ≡ nat_lt 0 (length (candidates_at sequences.now.started self.now)) }
    {
        self.choices(sequences, known).has_candidate()
    }

    // Returns the requests to choose from: the queue after the first `known` requests, which are not candidates.
    fn choices<'a>(&'a self, sequences: &'a Sequences, known: usize) -> Choices<'a>
        requires { IsPassed sequences.now.started self.now known }
        ensures sequences { result.sequences.now ≡ sequences.now }
        ensures holders { result.holders.now.list ≡ self.now.holders }
        ensures queue { result.queue.now ≡ drop known self.now.queue }
        ensures candidates { candidates sequences.now.started self.now.holders result.queue.now ≡ candidates_at sequences.now.started self.now }
        ensures priorities { list_all has_priority result.queue.now ≡ true }
        ensures small { length self.now.queue < 2 ^ 63 }
    {
        Choices {
            sequences,
            holders: &self.holders,
            queue: self.queue.behind(known),
        }
    }

    // Returns whether a port drives the sequencer.
    fn is_driver(&self, port: NodeId) -> bool
        ensures { result ≡ is_driver self.now.port port }
    {
        match self.port {
            Some(driver) => driver == port,
            None => false,
        }
    }
}
