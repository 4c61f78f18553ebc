//! Scans of the queue of a sequencer.

ghost use Rattle.std.specs.Prelude.{◌≡◌, not, length};
ghost use Rattle.std.specs.List.{position_or_len};
ghost use Rattle.uvm_sequencer.specs.Queues.{is_blocked, is_candidate, candidates};

use crate::requests::Request;
use uvm_sequencer_holders::Holders;
use uvm_sequences::Sequences;

// Returns whether a request is a candidate: an item request of a sequence that is not blocked.
pub(crate) fn is_candidate(sequences: &Sequences, holders: &Holders, request: &Request) -> bool
    ensures { result ≡ is_candidate sequences.now.started holders.now.list request.now }
{
    request.is_item() && !holders.is_blocked(sequences, request.seq)
}

// Returns the number of candidates.
pub(crate) fn count_candidates(sequences: &Sequences, holders: &Holders, queue: &[Request]) -> usize
    ensures { result ≡ length (candidates sequences.now.started holders.now.list queue.now) }
{
    queue
        .iter()
        .filter(|request| is_candidate(sequences, holders, request))
        .count()
}

// Returns the number of requests before the first whose sequence is not blocked; the number of all requests if there is none.
pub(crate) fn count_passed(sequences: &Sequences, holders: &Holders, queue: &[Request]) -> usize
    ensures { result ≡ position_or_len (λ request. not (is_blocked sequences.now.started holders.now.list request.seq)) queue.now }
{
    queue
        .iter()
        .position(|request| !holders.is_blocked(sequences, request.seq))
        .unwrap_or(queue.len())
}
