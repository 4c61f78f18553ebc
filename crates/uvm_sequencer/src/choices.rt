//! The choice among the candidates of a sequencer.

ghost use Rattle.std.specs.Prelude.{◌≡◌, ◌<◌, ◌≤◌, length, sum_by, slice_get, IfSome, IsSome, IsTrue, true};
ghost use Rattle.std.specs.List.{list_all, list_any};
ghost use Rattle.std.specs.Option.{option_and_then};
ghost use Rattle.uvm_sequencer.specs.Contending.{is_contending, contending, highest, bar_of};
ghost use Rattle.uvm_sequencer.specs.Choices.{first_over, choice, contenders, is_drawn};
ghost use Rattle.uvm_sequencer.specs.Queues.{candidates, is_candidate, priority_of};
ghost use Rattle.uvm_sequencer.specs.Marks.{has_priority};

use crate::modes::Mode;
use crate::requests::Request;
use crate::scans::is_candidate;
use uvm_sequencer_holders::Holders;
use uvm_sequences::Sequences;

// A queue, and the sequences and holders that decide which of its requests are blocked.
#[derive(Clone, Copy)]
pub(crate) struct Choices<'a> {
    pub sequences: &'a Sequences,
    pub holders: &'a Holders,
    pub queue: &'a [Request],
}

impl<'a> Choices<'a> {
    // Returns the greatest priority of a candidate; 0 if there is none.
    fn highest(&self) -> u16
        ensures { result ≡ highest (candidates self.now.sequences.now.started self.now.holders.now.list self.now.queue.now) }
    {
        let mut highest = 0;
        for request in self.queue {
            if is_candidate(self.sequences, self.holders, request) {
                highest = request.priority().max(highest);
            }
        }
        highest
    }

    // Returns the priority that a candidate needs to be a contender: the greatest in a strict mode, otherwise 0.
    fn bar(&self, mode: Mode) -> u16
        ensures { result ≡ bar_of mode (candidates self.now.sequences.now.started self.now.holders.now.list self.now.queue.now) }
    {
        if mode.is_strict() { self.highest() } else { 0 }
    }

    // Returns whether a request is a contender: a candidate with a priority of at least `bar`.
    fn is_contending(&self, bar: u16, request: &Request) -> bool
        ensures { result ≡ is_contending self.now.sequences.now.started self.now.holders.now.list bar request.now }
    {
        is_candidate(self.sequences, self.holders, request) && bar <= request.priority()
    }

    // Returns the number of contenders.
    fn count(&self, bar: u16) -> usize
        ensures { result ≡ length (contending self.now.sequences.now.started self.now.holders.now.list bar self.now.queue.now) }
    {
        self.queue
            .iter()
            .filter(|request| self.is_contending(bar, request))
            .count()
    }

    // Returns the place in the queue of contender number `n`, counted from 0; `None` if there are not so many.
    fn nth(&self, bar: u16, n: usize) -> Option<usize>
        ensures value { option_and_then (slice_get self.now.queue.now) result ≡ slice_get (contending self.now.sequences.now.started self.now.holders.now.list bar self.now.queue.now) n }
        ensures within { IfSome result (λ place. place < length self.now.queue.now) }
    {
        let mut left = n;
        for (place, request) in self.queue.iter().enumerate() {
            if self.is_contending(bar, request) {
                if left == 0 {
                    return Some(place);
                }
                left -= 1;
            }
        }
        None
    }

    // Returns the sum of the priorities of the contenders.
    fn sum(&self, bar: u16) -> u128
        ensures { result ≡ sum_by priority_of (contending self.now.sequences.now.started self.now.holders.now.list bar self.now.queue.now) }
    {
        let mut sum = 0;
        for request in self.queue {
            if self.is_contending(bar, request) {
                sum += u128::from(request.priority());
            }
        }
        sum
    }

    // Returns the place in the queue of the first contender at which the sum of the priorities so far exceeds `n`.
    fn first_over(&self, bar: u16, n: u128) -> Option<usize>
        ensures { option_and_then (slice_get self.now.queue.now) result ≡ first_over 0 n (contending self.now.sequences.now.started self.now.holders.now.list bar self.now.queue.now) }
    {
        let mut sum = 0;
        for (place, request) in self.queue.iter().enumerate() {
            if self.is_contending(bar, request) {
                sum += u128::from(request.priority());
                if n < sum {
                    return Some(place);
                }
            }
        }
        None
    }

    // Returns the place in the queue of the request to grant: the contender that the random number selects, or the first if
    // `word` is `None`. If all requests are known to be contenders (`are_all`), the number of a contender is its place.
    pub(crate) fn chosen(&self, mode: Mode, word: Option<u64>, are_all: bool) -> Option<usize>
        requires some { IsSome word → 0 < length (contenders mode (candidates self.now.sequences.now.started self.now.holders.now.list self.now.queue.now)) }
        requires priorities { list_all has_priority self.now.queue.now ≡ true }
        requires all { IsTrue are_all → contenders mode (candidates self.now.sequences.now.started self.now.holders.now.list self.now.queue.now) ≡ self.now.queue.now }
        ensures { option_and_then (slice_get self.now.queue.now) result ≡ choice mode (candidates self.now.sequences.now.started self.now.holders.now.list self.now.queue.now) word }
    {
        let bar = self.bar(mode);
        let Some(word) = word else {
            return self.nth(bar, 0);
        };
        match mode {
            Mode::Weighted => {
                let sum = self.sum(bar);
                self.first_over(bar, u128::from(word) % sum)
            }
            _ if are_all => Some((word % self.queue.len() as u64) as usize),
            _ => {
                let count = self.count(bar) as u64;
                self.nth(bar, (word % count) as usize)
            }
        }
    }

    // Returns whether there is a candidate. Cost: a scan of the queue up to the first candidate.
    pub(crate) fn has_candidate(&self) -> bool
        ensures { result ≡ list_any (is_candidate self.now.sequences.now.started self.now.holders.now.list) self.now.queue.now }
    {
        self.queue.iter().any(|request| is_candidate(self.sequences, self.holders, request))
    }

    // Returns whether a random number decides. Cost: in a random mode, a scan of the queue up to the second contender; in a
    // strict random mode, a scan of the whole queue before it.
    pub(crate) fn is_drawn(&self, mode: Mode) -> bool
        ensures { result ≡ is_drawn mode (candidates self.now.sequences.now.started self.now.holders.now.list self.now.queue.now) }
    {
        mode.is_random() && self.nth(self.bar(mode), 1).is_some()
    }
}
