//! The services: the state of a run that follows from its log.

ghost use Rattle.std.specs.Prelude.{◌≡◌, ◌∷◌, [], IfOk, None};
ghost use Rattle.bench_script.specs.Factories.{IsFactoryOf};
ghost use Rattle.bench_script.specs.Scripts.{ScriptValue};
ghost use Rattle.bench_history.specs.Configuration.{settings_of};
ghost use Rattle.bench_history.specs.History.{overrides_of};
ghost use Rattle.bench_history.specs.Reports.{script_commands};
ghost use Rattle.uvm_objection.specs.Nodes.{top};
ghost use Rattle.world_state.specs.Phased.{nodes_in};
ghost use Rattle.world_state.specs.ReportsMatch.{IsReportState};
ghost use Rattle.world_sequencing.specs.GrantIndexes.{AreKnown};
ghost use Rattle.world_services.specs.Services.{HasPassed, IsFactory, IsSettings, ServicesMatch};

use crate::phase_cursors::PhaseCursors;
use crate::settings::given_settings;
use bench_history::{EventTarget, RunStage};
use bench_script::Script;
use std::alloc::{AllocError, Global};
use uvm_config::Settings;
use uvm_factory::Factory;
use uvm_object::{EventCall, Who};
use uvm_objection::laws as objections;
use uvm_phase::{Agenda, Phase};
use uvm_sequences::Sequences;
use uvm_tlm::Wiring;
use uvm_tree::{NodeId, Tree};
use world_sequencing::arbiters::{Arbiters, passed_at};
use world_sequencing::grant_indexes::GrantIndex;
use world_sequencing::start_records::StartRecord;
use world_state::objections::Objections;
use world_state::report_state::{ReportState, given_report_state};
use world_wiring::fifo_states::FifoStates;

/// How far the last answer is performed.
#[derive(Drop)]
pub struct AnswerCursor {
    /// The component or sequence that gave the answer.
    pub performer: Who,
    /// The phase of the call that was answered, to which the actions belong; none for the creation of the test.
    pub phase: Option<Phase>,
    /// The place of the entry that records the answer; none for the creation of the test.
    pub place: Option<usize>,
    /// How many actions the answer has.
    pub count: usize,
    /// How many of its actions have been performed or refused.
    pub done: usize,
    /// Whether the actions that are left are skipped: the answer ended with a note, or the performer has finished.
    pub noted: bool,
}

/// The state of a run that follows from its log.
pub struct Services {
    pub stage: RunStage,
    /// The current time in ticks.
    pub time: u64,
    pub tree: Tree,
    /// The objections of the phases that take time. The run-time phases share one until they differ.
    pub objections: Objections,
    pub wiring: Wiring,
    pub fifo_states: FifoStates,
    /// Some nodes in path order, among them all FIFOs that have a transfer to complete.
    pub fifos_to_settle: Vec<NodeId>,
    pub arbiters: Arbiters,
    /// The sequencers at which a request may be granted, and how many requests are known to be blocked. At no other sequencer can a lock be
    /// granted or a driver be served.
    pub grant_index: GrantIndex,
    pub sequences: Sequences,
    /// The start records of the sequences, by their numbers.
    pub start_records: Vec<StartRecord>,
    pub factory: Factory,
    pub settings: Settings,
    pub report_state: ReportState,
    /// The scheduled events.
    pub agenda: Agenda<EventTarget, EventCall>,
    /// The components that wait for their callback in the active phases.
    pub phase_cursors: PhaseCursors,
    pub answer: AnswerCursor,
    pub built: bool,
    pub past_connect: bool,
    pub test_refused: bool,
}

// (Written by hand, so that crates above need not prove the drop of each field.)
impl Drop for Services {
    fn drop(self) {
        let Services {
            stage: _,
            time: _,
            tree: _,
            objections: _,
            wiring: _,
            fifo_states: _,
            fifos_to_settle: _,
            arbiters: _,
            grant_index: _,
            sequences: _,
            start_records: _,
            factory: _,
            settings: _,
            report_state: _,
            agenda: _,
            phase_cursors: _,
            answer: _,
            built: _,
            past_connect: _,
            test_refused: _,
        } = self;
    }
}

impl Services {
    /// Creates the services of a script before the first entry, with its factory. Errors: out of memory.
    pub fn given(alloc: Global, script: &Script, factory: Factory) -> Result<Services, AllocError>
        requires { IsFactoryOf script.now factory }
        ensures { IfOk result (ServicesMatch script.now []) }
    {
        let settings = given_settings(alloc, script.settings())?;
        let report_state = given_report_state(alloc, script)?;
        let objections = Objections::new(alloc, script.drains())?;
        Ok(Services::new(alloc, factory, settings, report_state, objections))
    }

    /// Creates the services before the first entry. Allocates no memory.
    pub fn new(
        alloc: Global,
        factory: Factory,
        settings: Settings,
        report_state: ReportState,
        objections: Objections,
    ) -> Services
        requires { (phase : Phase) → nodes_in objections phase ≡ top ∷ [] }
        ensures { (script : ScriptValue) → objections.given ≡ script.drains → IsFactory script.types (overrides_of script []) factory → IsSettings (settings_of script []) settings
            → IsReportState (script_commands script) None report_state → ServicesMatch script [] result }
    {
        objections::nodes_grow();
        Services {
            stage: RunStage::Before,
            time: 0,
            tree: Tree::new(alloc),
            objections,
            wiring: Wiring::new(alloc),
            fifo_states: FifoStates::new(alloc),
            fifos_to_settle: Vec::new(alloc),
            arbiters: Arbiters::new(alloc),
            grant_index: GrantIndex::new(alloc),
            sequences: Sequences::new(alloc),
            start_records: Vec::new(alloc),
            factory,
            settings,
            report_state,
            agenda: Agenda::new(alloc),
            phase_cursors: PhaseCursors::new(alloc),
            answer: AnswerCursor {
                performer: Who::Node(NodeId::TOP),
                phase: None,
                place: None,
                count: 1,
                done: 0,
                noted: false,
            },
            built: false,
            past_connect: false,
            test_refused: false,
        }
    }

    /// Counts the blocked requests at the sequencers of the grant index, so that they are not examined again while they are blocked (IEEE
    /// 1800.2-2020, Clause 15). Allocates no memory. Cost: O(n) in the requests that were not yet counted.
    pub fn pass_blocked(&mut self)
        requires { AreKnown self.old.sequences.started self.old.arbiters self.old.grant_index }
        ensures { HasPassed self.old self.new }
    {
        for place in 0..self.grant_index.nodes.len() {
            self.pass_at(place);
        }
    }

    // Counts the blocked requests at one of these sequencers.
    fn pass_at(&mut self, place: usize)
        requires { AreKnown self.old.sequences.started self.old.arbiters self.old.grant_index }
        ensures { HasPassed self.old self.new }
    {
        if let Some(node) = self.grant_index.nodes.get(place) {
            let node = *node;
            let known = self.grant_index.known(node);
            let passed = passed_at(&self.arbiters, &self.sequences, known, node);
            self.grant_index.learn(node, passed);
        }
    }
}
