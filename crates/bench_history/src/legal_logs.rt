//! Laws of every legal log, for all scripts. These functions have no run-time effect: call one where a proof needs its `ensures`. The laws
//! are in `specs/LegalLogs.antt`; docs/LAWS.md names the other definitions on which they rest.

ghost use Rattle.bench_history.specs.LegalLogs.{OlderLogsAreLegal, FifoOrder, StrictPriority, QuietEnd, OnTime, LockExcludes, OneItemOut, ItemWaitsAreSingle};

use crate::event_targets::EventTarget;
use uvm_object::Call;
use uvm_objection::laws as objections;
use uvm_phase::laws as agenda;
use uvm_sequencer::laws as sequencers;

/// Law: the entries before an entry of a legal log are a legal log.
pub fn older_logs_are_legal()
    ensures { OlderLogsAreLegal }
{}

/// Law: a sequence waits for at most one item, so an item that is granted to it is granted to this request.
pub fn item_waits_are_single()
    ensures { ItemWaitsAreSingle }
{
    agenda::order_keeps_all::<EventTarget, Option<Call>>();
    sequencers::lock_excludes();
}

/// Law: in mode FIFO a sequencer grants an item to the earliest request whose sequence is not blocked by a holder (IEEE 1800.2-2020, Clause
/// 15, `UVM_SEQ_ARB_FIFO`). In every mode it grants locks in the order of its queue.
pub fn fifo_order()
    ensures { FifoOrder }
{
    sequencers::fifo_order();
}

/// Law: in the modes STRICT_FIFO and STRICT_RANDOM no item is granted while a request of higher priority waits whose sequence is not
/// blocked by a holder. Of the requests of the highest priority, the first or the one that the random number selects is granted (IEEE
/// 1800.2-2020, Clause 15, `UVM_SEQ_ARB_STRICT_FIFO` and `UVM_SEQ_ARB_STRICT_RANDOM`).
pub fn strict_priority()
    ensures { StrictPriority }
{
    sequencers::lock_excludes();
    sequencers::strict_priority();
}

/// Law: when a phase that takes time ends, no node has an objection that is raised or delayed by the drain time (IEEE 1800.2-2020, Clause 9
/// and 10.5).
pub fn quiet_end()
    ensures { QuietEnd }
{
    objections::places_stay();
    objections::nodes_grow();
    objections::total_is_sum();
}

/// Law: a call with an origin is received, and a drain ends, at exactly the time that its cause determined. Time passes over no event that
/// is due, and never goes back. An event that is still due when its phase or its sequence ends never happens.
pub fn on_time()
    ensures { OnTime }
{
    objections::settled_go_by_totals();
    objections::begun_drains_are_held();
    objections::places_stay();
    objections::nodes_grow();
}

/// Law: from the grant of a lock or a grab to its release, or to its sequence's end, a sequencer grants only to the holder or its descendants.
/// Of any two holders, one is the other or its ancestor (IEEE 1800.2-2020, Clause 15).
pub fn lock_excludes()
    ensures { LockExcludes }
{
    agenda::order_keeps_all::<EventTarget, Option<Call>>();
    sequencers::lock_excludes();
    sequencers::holders_stay_nested();
}

/// Law: at most one item is outstanding (IEEE 1800.2-2020, Clause 15). Each item that is sent was granted. If the driver keeps an item, it
/// completes the item, or the phase in which it asked ends, before the next is sent. The number of items sent is the sum of those that went
/// to a `get`, were completed, ended with a phase, or are held by the driver. The law does not state that the driver receives the call for
/// an item.
pub fn one_item_out()
    ensures { OneItemOut }
{
    agenda::order_keeps_all::<EventTarget, Option<Call>>();
    sequencers::lock_excludes();
}
