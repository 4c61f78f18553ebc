//! Laws of all logs, or of all logs in which each entry was next, and of what comes next in them. These functions have no run-time effect:
//! their contracts are the laws (`specs/Laws.antt`), for all scripts.

ghost use Rattle.bench_history.specs.Laws.{PhasesGoInOrder, PhasesInProgressAreOpen, ActsAreInPhase, PhasesBeginBehind, RunningPhasesEnd, AskedAreThere, PerformersAreThere, ComponentsAreNodes, ComponentsByKind, HomesAreNodes, CallsGoInTurn, AnswersAreSettled, DueCallsGoInOrder, DrainsGoInOrder, PassagesGoInOrder, PassagesAreInPhase, WaitersAreComponents, LocksGoInOrder, LockersAreThere, GrantsGoInOrder, ChosenAreThere, DriversAreThere, AsksAreInPhase, ActsGoInOrder, NeedsAreWanted, NothingAfterOver, SomethingBeforeOver, MachineEntriesAreSilent, NodesStay, NodesAreATree, MadeObjectsAreNew, NewNodesAreUnasked, NewSequencesAreUnasked, LivingLived, LivingRun, LeaversLived, ReportsAreFew, TimeStaysWithin, WiringStays, ConnectFollowsBuild, TasksFollowConnect, TaskPhasesFollowConnect};

use crate::event_targets::EventTarget;
use uvm_object::Call;
use uvm_phase::laws as agenda;
use uvm_report::laws as reports;
use uvm_sequencer::laws as sequencers;
use uvm_tree::laws as trees;

/// Law: until the run ends, the ended phases are the first in the order in which phases end, each once (IEEE 1800.2-2020, Clause 9).
/// In this order the run phase follows the run-time phases. These are left out if the script does not have them run.
pub fn phases_go_in_order()
    ensures { PhasesGoInOrder }
{}

/// Law: an active phase has not ended.
#[tactic(auto, using(crate::proofs::Phased::phases_in_progress_are_open))]
pub fn phases_in_progress_are_open()
    ensures { PhasesInProgressAreOpen }
{}

/// Law: if an action is next, its phase, if any, is active and has not ended. If a sequence performs it, this is the phase in which the
/// sequence was started. The creation of the test is an exception.
pub fn acts_are_in_phase()
    ensures { ActsAreInPhase }
{
    agenda::order_keeps_all::<EventTarget, Option<Call>>();
    sequencers::lock_excludes();
}

/// Law: a phase that begins becomes the last of the active phases; the other active phases stay active.
#[tactic(auto, using(crate::proofs::Living::phases_begin_behind))]
pub fn phases_begin_behind()
    ensures { PhasesBeginBehind }
{}

/// Law: the phase that ends is the active phase that was begun last.
#[tactic(auto, using(crate::proofs::Performed::running_phases_end))]
pub fn running_phases_end()
    ensures { RunningPhasesEnd }
{}

/// Law: the receiver of the next call is a component or an active sequence.
pub fn asked_are_there()
    ensures { AskedAreThere }
{
    agenda::order_keeps_all::<EventTarget, Option<Call>>();
    sequencers::lock_excludes();
}

/// Law: the performer of the next action is a component or an active sequence, unless the action is the creation of the test.
pub fn performers_are_there()
    ensures { PerformersAreThere }
{
    agenda::order_keeps_all::<EventTarget, Option<Call>>();
    sequencers::lock_excludes();
}

/// Law: each component is a node of the tree.
#[tactic(auto, using(crate::proofs::Expected::components_are_nodes))]
pub fn components_are_nodes()
    ensures { ComponentsAreNodes }
{}

/// Law: the components are exactly the nodes of kind component other than the top node.
pub fn components_by_kind()
    ensures { ComponentsByKind }
{}

/// Law: each sequencer on which a sequence was started is a node of the tree.
pub fn homes_are_nodes()
    ensures { HomesAreNodes }
{
    agenda::order_keeps_all::<EventTarget, Option<Call>>();
    sequencers::lock_excludes();
}

/// Law: a call without an origin is the call of an active phase, to the component that is next in this phase.
#[tactic(auto, using(crate::proofs::Performed::calls_go_in_turn))]
pub fn calls_go_in_turn()
    ensures { CallsGoInTurn }
{}

/// Law: if an answer is next, nothing can be granted or transferred.
#[tactic(auto, using(crate::proofs::Performed::answers_are_settled))]
pub fn answers_are_settled()
    ensures { AnswersAreSettled }
{}

/// Law: a call with an origin is the event that is due first. It is due now, and the call goes to the target of the event.
#[tactic(auto, using(crate::proofs::Performed::due_calls_go_in_order))]
pub fn due_calls_go_in_order()
    ensures { DueCallsGoInOrder }
{}

/// Law: a drain that ends is the event that is due first. It is due now.
#[tactic(auto, using(crate::proofs::Performed::drains_go_in_order))]
pub fn drains_go_in_order()
    ensures { DrainsGoInOrder }
{}

/// Law: the next transfer at a FIFO is the first that can be completed.
#[tactic(auto, using(crate::proofs::Performed::passages_go_in_order))]
pub fn passages_go_in_order()
    ensures { PassagesGoInOrder }
{}

/// Law: a transfer that completes at a FIFO was requested in a phase that has not ended.
#[tactic(auto, using(crate::proofs::Performed::passages_are_in_phase))]
pub fn passages_are_in_phase()
    ensures { PassagesAreInPhase }
{}

/// Law: the requester of a transfer that completes at a FIFO is a component.
pub fn waiters_are_components()
    ensures { WaitersAreComponents }
{
    agenda::order_keeps_all::<EventTarget, Option<Call>>();
    sequencers::lock_excludes();
}

/// Law: a lock is granted at the first sequencer in path order at which a lock can be granted (Clause 15).
#[tactic(auto, using(crate::proofs::Performed::locks_go_in_order))]
pub fn locks_go_in_order()
    ensures { LocksGoInOrder }
{}

/// Law: a lock is granted to an active sequence that runs on that sequencer.
pub fn lockers_are_there()
    ensures { LockersAreThere }
{
    agenda::order_keeps_all::<EventTarget, Option<Call>>();
    sequencers::lock_excludes();
}

/// Law: an item is granted at the first sequencer in path order that can serve its driver.
#[tactic(auto, using(crate::proofs::Performed::grants_go_in_order))]
pub fn grants_go_in_order()
    ensures { GrantsGoInOrder }
{}

/// Law: an item is granted to an active sequence that runs on that sequencer.
pub fn chosen_are_there()
    ensures { ChosenAreThere }
{
    agenda::order_keeps_all::<EventTarget, Option<Call>>();
    sequencers::lock_excludes();
}

/// Law: if an action is next, each node on which a sequence was started holds a sequencer, and each driver is a component. An item that a
/// driver holds is that of a sequence which was started on its sequencer. A driver that is not idle asked in a phase that has not ended.
pub fn drivers_are_there()
    ensures { DriversAreThere }
{
    agenda::order_keeps_all::<EventTarget, Option<Call>>();
    sequencers::lock_excludes();
}

/// Law: until the run ends, each driver is a component, and each driver that is not idle asked in an active phase.
pub fn asks_are_in_phase()
    ensures { AsksAreInPhase }
{
    agenda::order_keeps_all::<EventTarget, Option<Call>>();
    sequencers::lock_excludes();
}

/// Law: if an action is next, it is the first remaining action of the last answer, and nothing can be granted or transferred.
#[tactic(auto, using(crate::proofs::Performed::acts_go_in_order))]
pub fn acts_go_in_order()
    ensures { ActsGoInOrder }
{}

/// Law: an action that needs an object creates a component under a free name, or starts the needed sequence.
#[tactic(auto, using(crate::proofs::Needed::needs_are_wanted))]
pub fn needs_are_wanted()
    ensures { NeedsAreWanted }
{}

/// Law: nothing comes after the end of a run.
#[tactic(auto, using(crate::proofs::Ended::nothing_after_over))]
pub fn nothing_after_over()
    ensures { NothingAfterOver }
{}

/// Law: until the end of a run, something comes next.
#[tactic(auto, using(crate::proofs::Ended::something_before_over))]
pub fn something_before_over()
    ensures { SomethingBeforeOver }
{}

/// Law: an entry that alone may come next answers no call, makes no component and starts no sequence.
pub fn machine_entries_are_silent()
    ensures { MachineEntriesAreSilent }
{}

/// Law: no entry removes a node.
#[tactic(auto, using(crate::proofs::Grown::nodes_stay))]
pub fn nodes_stay()
    ensures { NodesStay }
{}

/// Law: the nodes of a log form a tree. The top node is the first, each other node follows its parent, and no two nodes have the same path.
/// As no entry removes a node, no path is used again.
#[tactic(auto, using(crate::proofs::Treed::nodes_are_a_tree))]
pub fn nodes_are_a_tree()
    ensures { NodesAreATree }
{
    trees::nodes_grow();
}

/// Law: an object that is made is a new component at the newest node, or the newest sequence.
#[tactic(auto, using(crate::proofs::Grown::made_objects_are_new))]
pub fn made_objects_are_new()
    ensures { MadeObjectsAreNew }
{}

/// Law: no node with a number beyond the nodes of the tree received a call.
pub fn new_nodes_are_unasked()
    ensures { NewNodesAreUnasked }
{
    agenda::order_keeps_all::<EventTarget, Option<Call>>();
    sequencers::lock_excludes();
}

/// Law: no sequence with a number beyond the sequences that were started received a call.
pub fn new_sequences_are_unasked()
    ensures { NewSequencesAreUnasked }
{
    agenda::order_keeps_all::<EventTarget, Option<Call>>();
    sequencers::lock_excludes();
}

/// Law: a sequence that was started before an entry and is active after it was active before it.
#[tactic(auto, using(crate::proofs::Leaving::living_lived))]
pub fn living_lived()
    ensures { LivingLived }
{}

/// Law: until the run ends, an active sequence was started in a phase that is active.
pub fn living_run()
    ensures { LivingRun }
{
    agenda::order_keeps_all::<EventTarget, Option<Call>>();
    sequencers::lock_excludes();
}

/// Law: the sequences that an entry ends are exactly those that are active before it and not after it, in ascending order of number.
pub fn leavers_lived()
    ensures { LeaversLived }
{
    agenda::order_keeps_all::<EventTarget, Option<Call>>();
    sequencers::lock_excludes();
}

/// Law: no more reports were issued than the log has entries.
#[tactic(auto, using(crate::proofs::Reported::reports_are_few))]
pub fn reports_are_few()
    ensures { ReportsAreFew }
{
    reports::commands_are_counted();
}

/// Law: the time does not exceed the time limit of the script.
#[tactic(auto, using(crate::proofs::Timed::time_stays_within))]
pub fn time_stays_within_its_limit()
    ensures { TimeStaysWithin }
{}

/// Law: once the connect phase has nothing left to do, nothing is added or connected any more, whatever comes next.
#[tactic(auto, using(crate::proofs::Wired::wiring_stays))]
pub fn wiring_stays()
    ensures { WiringStays }
{}

/// Law: while connect runs, and just after its end, build has ended.
#[tactic(auto, using(crate::proofs::Wired::connect_follows_build))]
pub fn connect_follows_build()
    ensures { ConnectFollowsBuild }
{}

/// Law: until the run ends, if the next action belongs to a phase that takes time, connect has ended.
pub fn tasks_follow_connect()
    ensures { TasksFollowConnect }
{
    agenda::order_keeps_all::<EventTarget, Option<Call>>();
    sequencers::lock_excludes();
}

/// Law: while a phase that takes time is active, connect has ended.
#[tactic(auto, using(crate::proofs::Wired::task_phases_follow_connect))]
pub fn task_phases_follow_connect()
    ensures { TaskPhasesFollowConnect }
{}
