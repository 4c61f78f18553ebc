//! Laws of sequencers. These functions do nothing at run time; their contracts are the laws.

ghost use Rattle.uvm_sequencer.specs.Laws.{EachGrantEndsAWait, FifoOrder, HoldersStayNested, LockExcludes, OneItemOut, PassedStays, StartsChangeNothing, StrictPriority, WaitsStaySingle, WeightsShareTheDraws};

use uvm_sequences::laws as sequences;

/// States that a sequence that is granted a lock or an item waited for it. Each holder of the sequencer is then this sequence or
/// one of its ancestors, so that a holder blocks all other sequences.
pub fn lock_excludes()
    ensures { LockExcludes }
{}

/// States that of any two holders of a sequencer one is the other or one of its ancestors. There are no holders at first, and
/// every change keeps them so.
pub fn holders_stay_nested()
    ensures { HoldersStayNested }
{}

/// States that in FIFO mode a grant goes to an item request before which no candidate waits.
pub fn fifo_order()
    ensures { FifoOrder }
{}

/// States that in the strict modes no candidate has a greater priority than the granted request. In strict FIFO mode the grant
/// goes to the first candidate of that priority.
pub fn strict_priority()
    ensures { StrictPriority }
{}

/// States that in weighted mode as many random numbers select a request as its priority says, of the numbers below the sum of the
/// priorities.
pub fn weights_share_the_draws()
    ensures { WeightsShareTheDraws }
{}

/// States that, while the driver holds an item, it cannot request another, no sequence is granted, and none can send. The driver
/// still holds the item when any sequence leaves.
pub fn one_item_out()
    ensures { OneItemOut }
{}

/// States that the start of a sequence changes nothing at a sequencer at which all waiting sequences were started: the leading
/// lock, the candidates and the blocked requests stay the same. A queue that has not changed therefore needs no new scan.
pub fn starts_change_nothing()
    ensures { StartsChangeNothing }
{
    sequences::ancestors_stay();
}

/// States that, if the sequences of the first requests of a queue are blocked, they stay blocked and in front. This is true after
/// an item request or a lock request is added at the end, and after an item request is granted. A later scan may therefore start
/// after them.
pub fn passed_stays()
    ensures { PassedStays }
{}

/// States that a sequence waits for at most one item and one lock. This is true of a new sequencer, and every change keeps it.
pub fn waits_stay_single()
    ensures { WaitsStaySingle }
{}

/// States that each grant of a lock or an item ends exactly one wait, so that there are never more grants than waits.
pub fn each_grant_ends_a_wait()
    ensures { EachGrantEndsAWait }
{}
