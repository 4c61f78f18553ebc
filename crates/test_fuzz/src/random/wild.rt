//! The objects of a random bench.

use crate::random::acts::{Theme, act_of};
use crate::random::dice::Dice;
use crate::random::habits::{Nature, habit};
use std::alloc::{AllocError, Global};
use test_fuzz_runs::{Behaviour, Ticket};
use uvm_object::{Act, Acts, Answers, Call};
use uvm_phase::Phase;

// The number of objects of a bench, beyond which its components usually create no more; only those of the nature `Chain` do.
const CROWD: u64 = 12;

/// The behaviour of a random object. It answers each call with random actions, some that are allowed and some that are not.
#[derive(Drop)]
pub(crate) struct Wild {
    ticket: Ticket,
    dice: Dice,
    nature: Nature,
    // One in this many actions is not a usual one.
    rarity: u64,
}

impl Wild {
    /// Creates the behaviour of an object with its ticket.
    pub(crate) fn new(ticket: Ticket, nature: Nature, seed: u64) -> Wild {
        let mut dice = Dice::new(seed.wrapping_add(ticket.number().wrapping_mul(7919)));
        let rarity = match nature {
            Nature::Chain => 100,
            _ => dice.pick(&[1, 8, 8], 8),
        };
        Wild {
            ticket,
            dice,
            nature,
            rarity,
        }
    }

    // Returns the number of actions that answer a call.
    fn act_count(&mut self, call: &Call) -> u64 {
        if self.dice.one_in(250) {
            return self.dice.below(2).wrapping_add(64);
        }
        if let Nature::Chain = self.nature {
            return self.dice.below(2).wrapping_add(1);
        }
        match call {
            Call::Phase(Phase::Build) if self.rarity > 1 => self.dice.below(7).wrapping_add(6),
            Call::Phase(Phase::Connect) if self.rarity > 1 => self.dice.below(6).wrapping_add(3),
            Call::Phase(Phase::Build | Phase::Connect | Phase::Run) => self.dice.below(9),
            Call::Phase(_) => self.dice.below(3),
            Call::NextItem { .. }
            | Call::Grant
            | Call::Held
            | Call::PreStart
            | Call::Body
            | Call::PostStart => self.dice.below(3).wrapping_add(1),
            _ => self.dice.below(5),
        }
    }

    // Returns `count` actions that answer a call. Errors: out of memory.
    fn acts(&mut self, alloc: Global, call: &Call, count: u64) -> Result<Acts, AllocError> {
        let mut acts = Acts::new(alloc);
        for place in 0..count {
            let act = self.act(alloc, call, place)?;
            acts.push(act)?;
        }
        Ok(acts)
    }

    // Returns the theme of the answer to a call.
    fn theme(&self, call: &Call, is_crowded: bool) -> Theme {
        if let Nature::Sequence = self.nature {
            return Theme::Sequencing;
        }
        match call {
            Call::Phase(Phase::Build) if is_crowded => Theme::Adding,
            Call::Phase(Phase::Build) => Theme::Building,
            Call::Phase(Phase::Connect) => Theme::Connecting,
            Call::Phase(Phase::Run) => Theme::Running,
            Call::Phase(_) => Theme::Telling,
            _ => Theme::Running,
        }
    }

    // Returns an action of an answer, mostly the usual one at its place. Errors: out of memory.
    fn act(&mut self, alloc: Global, call: &Call, place: u64) -> Result<Act, AllocError> {
        let is_crowded = self.ticket.counts().made() > CROWD;
        if !self.dice.one_in(self.rarity) {
            let dice = &mut self.dice;
            if let Some(act) = habit(alloc, dice, self.nature, is_crowded, call, place) {
                return Ok(act);
            }
        }
        let theme = self.theme(call, is_crowded);
        act_of(alloc, &mut self.dice, theme)
    }
}

impl Behaviour for Wild {
    fn ticket(&self) -> &Ticket {
        &self.ticket
    }
}

impl Answers for Wild {
    fn answer(&mut self, alloc: Global, call: &Call) -> Result<Acts, AllocError> {
        let count = self.act_count(call);
        if count == 0 || !self.ticket.counts().take_answer() {
            return Ok(Acts::new(alloc));
        }
        if self.dice.one_in(4000) {
            self.ticket.fall_silent();
            return Err(AllocError);
        }
        self.acts(alloc, call, count)
    }
}
