//! The core of a testbench.

ghost use Rattle.std.specs.Prelude.{◌≡◌, ◌≢◌, ◌<◌, ◌∷◌, [], true, false, OnOk, OnErr, IfOk, IfErr, IfSome, IfNone, IsSome, is_some, Some, None, ◌&&◌, length, ◌++◌, nat_lt, if◌then◌else◌, not, option_map};
ghost use Rattle.std.specs.Bool.{OnTrue, OnFalse};
ghost use Rattle.std.specs.Option.{option_copied};
ghost use Rattle.uvm_tree.specs.Nodes.{node_at, number_at};
ghost use Rattle.bench_history.specs.Limits.{log_limit};
ghost use Rattle.bench_history.specs.History.{is_over, nodes_of, now_of, running, stage_of};
ghost use Rattle.uvm_glob.specs.Paths.{path_text};
ghost use Rattle.uvm_config.specs.Answers.{config_answer};
ghost use Rattle.bench_history.specs.Configuration.{settings_of};
ghost use Rattle.bench_history.specs.Objections.{objections_of};
ghost use Rattle.uvm_objection.specs.Totals.{total};
ghost use Rattle.uvm_phase.specs.Phases.{is_task};
ghost use Rattle.uvm_phase.specs.declared.phases.Phase.TheVariants.{Run};
ghost use Rattle.bench_history.specs.Arbitration.{waiters_at};
ghost use Rattle.bench_history.specs.Reports.{report_commands};
ghost use Rattle.bench_history.specs.Sequences.{sequences_of};
ghost use Rattle.uvm_glob.specs.Printed.{IsPrinted};
ghost use Rattle.uvm_report.specs.Changes.{ReportsAgree};
ghost use Rattle.uvm_report.specs.Plain.{ArePlainLines, IsLineAtMost};
ghost use Rattle.uvm_lines.specs.Lines.{who_text};
ghost use Rattle.bench_history.specs.Next.{next_of, made_in, declined_in, IsLegal};
ghost use Rattle.bench_history.specs.Cases as comes;
ghost use Rattle.bench_history.specs.Laws.{IsSomething};
ghost use Rattle.bench_core.specs.Cores.{DrawsOne, HasEntered, IsDrawing, IsDrawn, IsNextTurn, IsToldTurn, IsTurn, drawn_by, word_in, IsUnmade, core_after, failed_from, is_sound, turn_of, need_of, answer_in, is_good, turn_after, call_of, IsAsk, AsksSomething, AsksThere, HasFewLines, last_line, last_text};
ghost use Rattle.bench_core.specs.Worlds.{broken, made_who};
ghost use Rattle.bench_core.specs.NextActions.{IsNextAction};
ghost use Rattle.bench_core.specs.Cores.{Nothing, IsRequest};

use crate::faults::CoreFault;
use crate::next_actions::{NextAction, choose};
use crate::{World, next, report_lines, services, status};
use bench_history::{Need, laws};
use bench_script::Script;
use rand_core::Rng;
use std::alloc::{AllocError, Global};
use std::marker::Model;
use uvm_glob::{Name, Path};
use uvm_lines::{line_of, who_text};
use uvm_object::{Acts, Call, Entry, Log, Who};
use uvm_phase::Phase;
use uvm_report::Reports;
use uvm_tree::NodeId;

/// The result of `Core::next`.
#[derive(Clone, Copy, PartialEq, Eq)]
pub enum Turn {
    /// A request for an object, which `need` returns.
    Need,
    /// A request for an answer to a call, which `call` returns.
    Ask {
        /// The component or sequence that is to answer.
        who: Who,
    },
    /// The end of a sequence (IEEE 1800.2-2020, Clause 14).
    Leave {
        /// The sequence, with its number and its home.
        who: Who,
    },
    /// A new log entry.
    Moved,
    /// The end of the run.
    Over,
}

/// The state of a core.
#[derive(Clone, Copy, PartialEq, Eq)]
pub enum Health {
    /// A core that has not failed.
    Good,
    /// A core that has failed with a full log. All its queries still answer by the log.
    Full,
    /// A core that ran out of memory. Only its log can still be read.
    Broken,
}

/// The core of a testbench: it appends the entries of the log step by step, and takes answers as values. Contracts see the script, the log
/// (newest entry first), the open request, the state of the core, and the ended sequences not yet reported.
#[derive(Drop)]
pub struct Core {
    world: World,
    // Whether the core has failed with a full log.
    full: bool,
    // How many of the sequences that the newest entry has ended were reported.
    told: usize,
}

impl Model for Core {
    ghost use Rattle.std.specs.Prelude.{drop};
    ghost use Rattle.bench_history.specs.Sequences.{leaving_of};
    ghost use Rattle.bench_core.specs.Cores.{CoreValue, IsCore, health_of};

    ghost Value = { CoreValue };

    ghost view = { λ c. record { script = c.world.script; history = c.world.history; standing = c.world.standing; health = health_of c.world.sound c.full; leaving = drop c.told (leaving_of c.world.history) } };

    ghost invariant = { λ c. IsCore c.world (health_of c.world.sound c.full) (drop c.told (leaving_of c.world.history)) };
}

impl Core {
    /// Creates the core of a script, with an empty log. Errors: `NoTest` if the script has no test; `Memory` (out of memory).
    pub fn new(alloc: Global, script: Script) -> Result<Core, CoreFault>
        ensures ok { IfOk result (λ core. IsSome script.test × (core ≡ record { script = script; history = []; standing = Nothing; health = Health.Good; leaving = [] })) }
        ensures err { IfErr result (IsUnmade script) }
    {
        if script.test().is_none() {
            return Err(CoreFault::NoTest);
        }
        match World::new(alloc, script) {
            Ok(world) => Ok(Core {
                world,
                full: false,
                told: 0,
            }),
            Err(_) => Err(CoreFault::Memory),
        }
    }

    /// Performs one step. Reports each ended sequence once, in ascending order of number and before any further entry (`Leave`). Otherwise
    /// appends the next log entry (`Moved`), or makes or repeats its request for an object (`Need`) or an answer (`Ask`). Returns `Over`
    /// when the run has ended. The target of `Ask` is a component or an active sequence. One random number is consumed if it decides which
    /// sequence is granted the next item (Clause 15), otherwise none. Errors: `Failed` after an earlier `LogFull` or `Memory`; `LogFull` if
    /// an entry would come next and the log is full; `Memory` (out of memory). After an error the core has failed. `Memory` may also lose a
    /// random number.
    pub fn next<R: Rng>(&mut self, words: &mut R) -> Result<Turn, CoreFault>
        ensures turn { IsToldTurn self.old.leaving result self.old self.new }
        ensures asked { IfOk result (λ turn. AsksThere turn self.old.history) }
        ensures over { IfOk result (λ turn. turn ≡ Turn.Over → is_over self.new.history ≡ true) }
        ensures room { IfOk result (λ turn. IsRequest turn → length self.new.history < log_limit self.new.script) }
        ensures words { IsDrawing R.stream (drawn_by self.new.history) result words.old words.new }
    {
        if let Some(who) = self.tell_next() {
            return Ok(Turn::Leave { who });
        }
        self.turn_on(words)
    }

    /// Returns the open request (`Need` or `Ask`), or `None` if there is none.
    pub fn turn(&self) -> Option<Turn>
        ensures { result ≡ turn_of self.now.standing }
    {
        match (self.world.need(), self.world.pending_call()) {
            (Some(_), _) => Some(Turn::Need),
            (None, Some(pending_call)) => Some(Turn::Ask {
                who: pending_call.who,
            }),
            (None, None) => None,
        }
    }

    /// Returns the call that is to be answered, or `None` if no answer is requested. Allocates no memory.
    pub fn call(&self) -> Option<&Call>
        ensures { option_copied result ≡ call_of self.now.standing }
    {
        Some(&self.world.pending_call()?.call)
    }

    /// Returns the object that is needed, or `None` if none is.
    pub fn need(&self) -> Option<&Need>
        ensures { option_copied result ≡ need_of self.now.standing }
    {
        self.world.need()
    }

    /// Records that the needed object is made, and returns the component or sequence that it is. Requires that an object is needed.
    /// Allocates no memory.
    pub fn made(&mut self) -> Who
        requires { turn_of self.old.standing ≡ Some Turn.Need }
        ensures who { made_who self.old.history (next_of self.old.script self.old.history) ≡ Some result }
        ensures entry { IfSome (made_in (next_of self.old.script self.old.history)) (λ entry. self.new ≡ core_after entry self.old) }
        ensures one { IsSome (made_in (next_of self.old.script self.old.history)) }
    {
        self.told = 0;
        self.world.made()
    }

    /// Records that the needed object is declined. Requires that an object is needed. Allocates no memory.
    pub fn declined(&mut self)
        requires { turn_of self.old.standing ≡ Some Turn.Need }
        ensures entry { IfSome (declined_in (next_of self.old.script self.old.history)) (λ entry. self.new ≡ core_after entry self.old) }
        ensures one { IsSome (declined_in (next_of self.old.script self.old.history)) }
    {
        self.told = 0;
        self.world.declined();
    }

    /// Records the answer to the pending call. Requires that an answer is requested. Errors: `Memory` (out of memory); the core has failed
    /// then.
    pub fn heard(&mut self, acts: Acts) -> Result<(), CoreFault>
        requires { IsAsk (turn_of self.old.standing) }
        ensures ok { OnOk result (IfSome (answer_in self.old.standing acts) (λ entry. self.new ≡ core_after entry self.old)) }
        ensures err { IfErr result (λ fault. (fault ≡ CoreFault.Memory) × (self.new ≡ failed_from Health.Broken self.old)) }
    {
        match self.world.heard(acts) {
            Ok(()) => {
                self.told = 0;
                Ok(())
            }
            Err(_) => Err(CoreFault::Memory),
        }
    }

    /// Returns the current time in ticks, or 0 after an out-of-memory error.
    pub fn now(&self) -> u64
        ensures { result ≡ (if is_sound self.now.health then now_of self.now.history else 0) }
    {
        if !self.is_sound() {
            return 0;
        }
        status::now(&self.world)
    }

    /// Returns the active phase that began last, or `None` if no phase is active. Between two run-time phases this is the run phase (Clause
    /// 9). Returns `None` after an out-of-memory error.
    pub fn phase(&self) -> Option<Phase>
        ensures { result ≡ (if is_sound self.now.health then running (stage_of self.now.history) else None) }
    {
        if !self.is_sound() {
            return None;
        }
        status::phase(&self.world)
    }

    /// Returns a reference to the log, which is always legal. Its limit in entries is that of the script's version.
    pub fn log(&self) -> &Log
        ensures entries { result.now.entries ≡ self.now.history }
        ensures legal { IsLegal self.now.script self.now.history }
        ensures limit { result.now.limit ≡ log_limit self.now.script }
    {
        self.world.log()
    }

    /// Returns whether the run has ended: the newest entry of the log is its end. Still answers after an out-of-memory error.
    pub fn is_over(&self) -> bool
        ensures { result ≡ is_over self.now.history }
    {
        matches!(self.world.log().last(), Some(Entry::Over(_)))
    }

    /// Returns the path of a node, including the root. Returns `None` if there is no such node, or after an out-of-memory error.
    pub fn path(&self, node: NodeId) -> Option<&Path>
        ensures { option_copied result ≡ (if is_sound self.now.health then option_map (λ node. node.path) (node_at (nodes_of self.now.history) node) else None) }
    {
        if !self.is_sound() {
            return None;
        }
        services::tree(&self.world).path(node)
    }

    /// Returns the node at a path, including the root. Returns `None` if there is no such node, or after an out-of-memory error.
    pub fn find(&self, path: &Path) -> Option<NodeId>
        ensures { result ≡ (if is_sound self.now.health then number_at (nodes_of self.now.history) path.now else None) }
    {
        if !self.is_sound() {
            return None;
        }
        services::tree(&self.world).find(path)
    }

    /// Returns the value of a field at a path (IEEE 1800.2-2020, Annex C). Returns `None` if it has none, or after an out-of-memory error.
    pub fn config(&self, path: &Path, field: &Name) -> Option<i64>
        ensures { result ≡ (if is_sound self.now.health then config_answer (settings_of self.now.script self.now.history) (path_text path.now) field.now else None) }
    {
        if !self.is_sound() {
            return None;
        }
        status::config(&self.world, path, field)
    }

    /// Returns the count of objections to the end of the run phase that are raised at a node and below it. The count includes those below
    /// it that are delayed by the drain time (10.5). Returns 0 if there is no such node, or after an out-of-memory error.
    pub fn total(&self, node: NodeId) -> u64
        ensures { result ≡ (if is_sound self.now.health && nat_lt node (length (nodes_of self.now.history)) then total (objections_of self.now.script Run self.now.history) node else 0) }
    {
        self.total_in(Phase::Run, node)
    }

    /// Returns the count of objections to the end of a phase that are raised at a node and below it. The count includes those below it that
    /// are delayed by the drain time (10.5). Returns 0 for a phase that takes no time, if there is no such node, or after an out-of-memory
    /// error. Allocates no memory.
    pub fn total_in(&self, phase: Phase, node: NodeId) -> u64
        ensures { result ≡ (if is_sound self.now.health && is_task phase && nat_lt node (length (nodes_of self.now.history)) then total (objections_of self.now.script phase self.now.history) node else 0) }
    {
        if !self.is_sound() {
            return 0;
        }
        status::total_in(&self.world, phase, node)
    }

    /// Returns how many puts, gets and peeks wait at a FIFO (Clause 12), or item requests and locks at a sequencer (Clause 15). Returns 0
    /// for every other node, or after an out-of-memory error.
    pub fn waiting(&self, node: NodeId) -> usize
        ensures { result ≡ (if is_sound self.now.health then waiters_at self.now.history node else 0) }
    {
        if !self.is_sound() {
            return 0;
        }
        status::waiting(&self.world, node)
    }

    /// Returns the state of the run, which the queries of `services` and `status` read; `None` after an out-of-memory error.
    pub fn world(&self) -> Option<&World>
        ensures given { IfSome result (λ world. (world.now.sound ≡ true) × (world.now.script ≡ self.now.script) × (world.now.history ≡ self.now.history)) }
        ensures variant { is_some result ≡ is_sound self.now.health }
    {
        if !self.is_sound() {
            return None;
        }
        Some(&self.world)
    }

    /// Returns the report server (Clause 6), or `None` after an out-of-memory error.
    pub fn reports(&self) -> Option<&Reports>
        ensures given { IfSome result (λ reports. ReportsAgree reports.now (report_commands self.now.script self.now.history)) }
        ensures variant { is_some result ≡ is_sound self.now.health }
    {
        if !self.is_sound() {
            return None;
        }
        Some(services::reports(&self.world))
    }

    /// Appends the text of the newest entry: its line if `trace` is true, and the line of its report if it has one that is displayed. Each
    /// is one line. Their bytes are printable, and no line begins with `!` or `?`. If `out` is empty, the line
    /// of the entry is built in it, otherwise in a vector of its own. After an out-of-memory error of the core nothing is appended. Errors:
    /// out of memory, only if there is text to append. An error appends nothing.
    #[tactic(auto, using(crate::proofs::Shown::some_in_front, crate::proofs::Shown::some_behind, crate::proofs::Shown::whole, crate::proofs::Shown::few))]
    pub fn last_text(&self, trace: bool, out: &mut Vec<u8>) -> Result<(), AllocError>
        ensures ok { OnOk result (out.new.items ≡ out.old.items ++ (if is_sound self.now.health then last_text trace self.now.script self.now.history else [])) }
        ensures err { OnErr result (out.new.items ≡ out.old.items) }
        ensures plain { OnOk result (ArePlainLines (if is_sound self.now.health then last_text trace self.now.script self.now.history else [])) }
        ensures lines { OnOk result (is_sound self.now.health ≡ true → HasFewLines trace self.now.script self.now.history) }
        ensures some { OnErr result (last_text trace self.now.script self.now.history ≢ []) }
    {
        if !self.is_sound() {
            return Ok(());
        }
        let before = out.len();
        self.push_last_line(trace, out)?;
        let pushed = report_lines::push_report(&self.world, out);
        // If an allocation for the line of the report fails, the line of the entry is removed.
        if pushed.is_err() {
            out.truncate(before);
        }
        pushed
    }

    /// Returns the text of a component or a sequence, as the lines of entries show it. Its bytes are printable. The text is empty
    /// after an out-of-memory error of the core. Errors: out of memory.
    pub fn who_text(&self, alloc: Global, who: &Who) -> Result<Vec<u8>, AllocError>
        ensures printed { IfOk result (λ text. IsPrinted text.items) }
        ensures text { IfOk result (λ text. text.items ≡ (if is_sound self.now.health then who_text (nodes_of self.now.history) (sequences_of self.now.history) who.now else [])) }
    {
        if !self.is_sound() {
            return Ok(Vec::new(alloc));
        }
        who_text(
            alloc,
            who,
            services::tree(&self.world),
            services::sequences(&self.world),
        )
    }

    // Appends the line of the newest entry, if `trace` is true and there is one.
    #[tactic(auto, using(crate::proofs::Shown::line_some, crate::proofs::Shown::plain))]
    fn push_last_line(&self, trace: bool, text: &mut Vec<u8>) -> Result<(), AllocError>
        requires { is_sound self.now.health ≡ true }
        ensures ok { OnOk result (text.new.items ≡ text.old.items ++ last_line trace self.now.history) }
        ensures err { OnErr result (text.new.items ≡ text.old.items) }
        ensures plain { OnOk result (IsLineAtMost (last_line trace self.now.history)) }
        ensures some { OnErr result (last_line trace self.now.history ≢ []) }
    {
        match self.world.log().last() {
            Some(entry) if trace => {
                line_of(
                    entry,
                    services::tree(&self.world),
                    services::sequences(&self.world),
                    text,
                )
            }
            _ => Ok(()),
        }
    }

    // Returns whether the services agree with the log.
    fn is_sound(&self) -> bool
        ensures { result ≡ is_sound self.now.health }
    {
        match self.health() {
            Health::Good | Health::Full => true,
            Health::Broken => false,
        }
    }

    /// Returns whether the core has failed.
    pub fn has_failed(&self) -> bool
        ensures { result ≡ not (is_good self.now.health) }
    {
        match self.health() {
            Health::Good => false,
            Health::Full | Health::Broken => true,
        }
    }

    // Returns the health of the core.
    fn health(&self) -> Health
        ensures { result ≡ self.now.health }
    {
        match (self.world.sound(), self.full) {
            (true, false) => Health::Good,
            (true, true) => Health::Full,
            (false, _) => Health::Broken,
        }
    }

    // Returns the next ended sequence that was not reported yet, and counts it as reported.
    fn tell_next(&mut self) -> Option<Who>
        ensures none { IfNone result ((self.old.leaving ≡ []) × (self.new ≡ self.old)) }
        ensures some { IfSome result (λ who. self.old.leaving ≡ who ∷ self.new.leaving) }
        ensures rest { self.new ≡ record self.old { leaving = self.new.leaving } }
    {
        let Health::Good = self.health() else {
            return None;
        };
        let who = self.world.leaving().get(self.told)?.copy();
        self.told += 1;
        Some(who)
    }

    // Repeats the open request, or performs the next step.
    fn turn_on<R: Rng>(&mut self, words: &mut R) -> Result<Turn, CoreFault>
        requires { self.old.leaving ≡ [] }
        ensures turn { IsNextTurn self.old.standing result self.old self.new }
        ensures asked { IfOk result (λ turn. AsksThere turn self.old.history) }
        ensures over { IfOk result (λ turn. turn ≡ Turn.Over → is_over self.new.history ≡ true) }
        ensures room { IfOk result (λ turn. IsRequest turn → length self.new.history < log_limit self.new.script) }
        ensures words { IsDrawing R.stream (drawn_by self.new.history) result words.old words.new }
    {
        // The log is legal, so the component or sequence that is called exists, and a run goes on to its end.
        let _log = self.world.log();
        laws::asked_are_there();
        laws::something_before_over();
        if let Some(turn) = self.turn() {
            return Ok(turn);
        }
        match self.health() {
            Health::Good => self.go_on(words),
            Health::Full | Health::Broken => Err(CoreFault::Failed),
        }
    }

    // Performs the next step, or fails because the log is full.
    fn go_on<R: Rng>(&mut self, words: &mut R) -> Result<Turn, CoreFault>
        requires standing { self.old.standing ≡ Nothing }
        requires health { self.old.health ≡ Health.Good }
        requires told { self.old.leaving ≡ [] }
        ensures turn { IsNextTurn Nothing result self.old self.new }
        ensures words { IsDrawing R.stream (drawn_by self.new.history) result words.old words.new }
    {
        if is_over(&self.world) {
            return Ok(Turn::Over);
        }
        if self.world.is_full() {
            self.full = true;
            return Err(CoreFault::LogFull);
        }
        match self.advance(words) {
            Ok(Some(turn)) => Ok(turn),
            Ok(None) => match self.turn() {
                Some(turn) => Ok(turn),
                None => unreachable!(),
            },
            Err(_) => Err(CoreFault::Memory),
        }
    }

    // Performs the next action of the kernel, and returns its turn; returns `None` if it opens a request.
    fn advance<R: Rng>(&mut self, words: &mut R) -> Result<Option<Turn>, AllocError>
        requires standing { self.old.standing ≡ Nothing }
        requires health { self.old.health ≡ Health.Good }
        requires told { self.old.leaving ≡ [] }
        requires room { length self.old.history < log_limit self.old.script }
        ensures ok { IfOk result (λ made. IsTurn (next_of self.old.script self.old.history) (turn_after made self.new.standing) self.old self.new) }
        ensures asked { IfOk result (λ made. made ≡ None → AsksSomething self.new.standing) }
        ensures err { OnErr result (self.new ≡ failed_from Health.Broken self.old) }
        ensures words { IfOk result (λ made. IsDrawn R.stream (drawn_by self.new.history (turn_after made self.new.standing)) words.old words.new) }
        ensures lost { OnErr result (DrawsOne R.stream words.old words.new) }
    {
        let made = match choose(&mut self.world)? {
            NextAction::Nothing => Some(Turn::Over),
            NextAction::Enter(kernel_entry) => {
                self.world.enter(kernel_entry)?;
                self.told = 0;
                Some(Turn::Moved)
            }
            NextAction::Grant(sequencer, drawn) => {
                grant(&mut self.world, sequencer, drawn, words)?;
                self.told = 0;
                Some(Turn::Moved)
            }
            NextAction::Pass => {
                pass(&mut self.world)?;
                self.told = 0;
                Some(Turn::Moved)
            }
            NextAction::Act => {
                self.world.did()?;
                if self.world.need().is_some() {
                    None
                } else {
                    self.told = 0;
                    Some(Turn::Moved)
                }
            }
            NextAction::Ask => None,
        };
        Ok(made)
    }
}

// Performs the next transfer at a FIFO. (Not inlined, so that no other step needs stack space for a `Passage`.)
#[inline(never)]
fn pass(world: &mut World) -> Result<(), AllocError>
    requires sound { world.old.sound ≡ true }
    requires room { length world.old.history < log_limit world.old.script }
    requires next { IsNextAction (next_of world.old.script world.old.history) Nothing NextAction.Pass }
    ensures entered { OnOk result (HasEntered world.old world.new) }
    ensures sound { OnOk result (world.new.sound ≡ true) }
    ensures settled { OnOk result (world.new.standing ≡ Nothing) }
    ensures err { OnErr result (world.new ≡ broken world.old) }
{
    // It is the first FIFO at which a request that waits can complete.
    laws::passages_go_in_order();
    let Some((fifo, passage)) = next::next_passed(world) else {
        unreachable!()
    };
    world.passed(fifo, passage)
}

// Grants an item at a sequencer, by a random number if one decides. (Not inlined, so that no other step needs stack space for it.)
#[inline(never)]
fn grant<R: Rng>(
    world: &mut World,
    sequencer: NodeId,
    drawn: bool,
    words: &mut R,
) -> Result<(), AllocError>
    requires sound { world.old.sound ≡ true }
    requires room { length world.old.history < log_limit world.old.script }
    requires next { IsNextAction (next_of world.old.script world.old.history) Nothing (NextAction.Grant sequencer drawn) }
    ensures entered { OnOk result (HasEntered world.old world.new) }
    ensures sound { OnOk result (world.new.sound ≡ true) }
    ensures settled { OnOk result (world.new.standing ≡ Nothing) }
    ensures words { OnOk result (IsDrawn R.stream (word_in world.new.history) words.old words.new) }
    ensures err { OnErr result (world.new ≡ broken world.old) }
    ensures lost { OnErr result (DrawsOne R.stream words.old words.new) }
{
    // It is the first sequencer whose driver can be served.
    laws::grants_go_in_order();
    let word = draw(words, drawn);
    world.granted(sequencer, word)
}

// Returns a random number, if one decides.
fn draw<R: Rng>(words: &mut R, drawn: bool) -> Option<u64>
    ensures word { is_some result ≡ drawn }
    ensures words { IsDrawn R.stream result words.old words.new }
{
    if drawn { Some(words.next_u64()) } else { None }
}

// Returns whether the run has ended.
fn is_over(world: &World) -> bool
    requires { world.now.sound ≡ true }
    ensures over { OnTrue result (next_of world.now.script world.now.history ≡ comes.Nothing) }
    ensures on { OnFalse result (IsSomething (next_of world.now.script world.now.history)) }
{
    laws::nothing_after_over();
    laws::something_before_over();
    matches!(world.log().last(), Some(Entry::Over(_)))
}
