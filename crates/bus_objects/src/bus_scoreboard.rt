//! The object `bus_scoreboard`.

ghost use Rattle.std.specs.Prelude.{◌≡◌, IfOk, OnOk, OnErr};
ghost use Rattle.bus_objects.specs.BusScoreboard.{bus_scoreboard_acts, is_bad, mismatch_text, new_score, one_more, score_after, score_text, score_with};

use crate::boxed::{Boxed, Fresh};
use crate::items::{address_of, data_of, is_write};
use crate::words::WordMap;
use std::alloc::{AllocError, Global};
use uvm_glob::Name;
use uvm_object::{Acts, Call, UvmObject};
use uvm_phase::Phase;
use uvm_report::{Text, verbosity};
use uvm_tlm::Item;

/// A scoreboard that checks whether each read gives the word that was last written at its address. In `build` it adds the imp `seen`. When
/// an item is written to the imp (`written`), it counts the item. If the item is a write (operation 1), it stores the data at the address.
/// Any other item is a read. A read is bad if its data is not the word last written at its address, 0 if none was written. It counts a bad
/// read, and reports it as an ERROR with id `SB` and the text `read ADDRESS gave DATA not WORD`. In `report` it reports an INFO with id
/// `SB` and verbosity 200. The text is `N seen M bad`, with the numbers of items and of bad reads. Each number stops at 10^18.
///
/// View: the number of items, the number of bad reads, and the written words by address. A new object has 0, 0 and no words. It answers
/// every other call, and an item that is not a bad read, with no actions. Standard: IEEE 1800.2-2020, Clause 12 (the imp), Clause 6 (the
/// reports).
#[derive(Drop)]
pub struct BusScoreboard {
    type_name: Name,
    score: Score,
}

impl BusScoreboard {
    ghost use Rattle.bus_objects.specs.BusScoreboard.{bus_scoreboard_named};

    /// Returns a new object if `type_name` is `bus_scoreboard`, otherwise `None`. Allocates no memory.
    pub fn of_type(type_name: &Name) -> Option<Boxed<BusScoreboard>>
        ensures { result ≡ bus_scoreboard_named type_name.now }
    {
        if type_name.as_bytes() == b"bus_scoreboard".as_slice() {
            Some(Boxed::new(*type_name))
        } else {
            None
        }
    }
}

impl Fresh for BusScoreboard {
    ghost use Rattle.std.specs.Prelude.{refl};
    ghost use Rattle.bus_objects.specs.BusScoreboard.{new_bus_scoreboard};

    ghost fresh = { new_bus_scoreboard };

    fn fresh(alloc: Global, type_name: Name) -> BusScoreboard {
        BusScoreboard {
            type_name,
            score: Score::new(alloc),
        }
    }

    ghost named = { λ _. refl };
}

impl UvmObject for BusScoreboard {
    ghost use Rattle.bus_objects.specs.BusScoreboard.{BusScoreboardSays, bus_scoreboard_view};

    ghost view = { bus_scoreboard_view };

    ghost name = { λ bus_scoreboard. bus_scoreboard.type_name };

    ghost says = { λ _. BusScoreboardSays };

    fn type_name(&self) -> &Name {
        &self.type_name
    }

    fn hear(&mut self, alloc: Global, call: &Call) -> Result<Acts, AllocError> {
        let acts = self.score.acts(alloc, call)?;
        self.score.take_in(call)?;
        Ok(acts)
    }
}

// The state of a scoreboard.
#[derive(Drop)]
struct Score {
    // The number of items, and the number of bad reads among them. Each is at most `MOST`.
    seen: u64,
    bad: u64,
    // The written words, by address.
    words: WordMap,
}

impl Score {
    // The greatest value of a count.
    const MOST: u64 = 1_000_000_000_000_000_000;

    fn new(alloc: Global) -> Score
        ensures { result ≡ new_score }
    {
        Score {
            seen: 0,
            bad: 0,
            words: WordMap::new(alloc),
        }
    }

    // Returns the actions that answer a call. Errors: out of memory.
    fn acts(&self, alloc: Global, call: &Call) -> Result<Acts, AllocError>
        ensures { IfOk result (λ acts. acts ≡ bus_scoreboard_acts self.now call.now) }
    {
        let mut acts = Acts::new(alloc);
        match call {
            Call::Phase(Phase::Build) => acts.imp("seen")?,
            Call::Written { item, .. } if self.is_bad(item) => {
                acts.error("SB", self.mismatch_text(alloc, item)?)?;
            }
            Call::Phase(Phase::Report) => acts.info("SB", self.text(alloc)?, verbosity::MEDIUM)?,
            _ => (),
        }
        Ok(acts)
    }

    // Updates the score for a call. Errors: out of memory. An error changes nothing.
    fn take_in(&mut self, call: &Call) -> Result<(), AllocError>
        ensures ok { OnOk result (self.new ≡ score_after self.old call.now) }
        ensures err { OnErr result (self.new ≡ self.old) }
    {
        match call {
            Call::Written { item, .. } => self.see(item),
            _ => Ok(()),
        }
    }

    // Counts an item, and stores the data of a write. Errors: out of memory. An error changes nothing.
    fn see(&mut self, item: &Item) -> Result<(), AllocError>
        ensures ok { OnOk result (self.new ≡ score_with item.now self.old) }
        ensures err { OnErr result (self.new ≡ self.old) }
    {
        let bad = self.is_bad(item);
        self.words.take_in(item)?;
        self.seen = one_more(self.seen);
        if bad {
            self.bad = one_more(self.bad);
        }
        Ok(())
    }

    // Returns whether the item is a read whose data is not the word last written at its address, 0 if none was written.
    fn is_bad(&self, item: &Item) -> bool
        ensures { result ≡ is_bad self.now.words item.now }
    {
        !is_write(item) && data_of(item) != self.words.at(address_of(item))
    }

    // Returns the text that reports a bad read. Errors: out of memory.
    fn mismatch_text(&self, alloc: Global, item: &Item) -> Result<Text, AllocError>
        ensures { IfOk result (λ text. text ≡ mismatch_text self.now.words item.now) }
    {
        let address = address_of(item);
        let datum = data_of(item);
        let word = self.words.at(address);
        let text = format!(in alloc; "read {address} gave {datum} not {word}")?;
        Text::lossy(alloc, text.as_str())
    }

    // Returns the text that reports both counts. Errors: out of memory.
    fn text(&self, alloc: Global) -> Result<Text, AllocError>
        ensures { IfOk result (λ text. text ≡ score_text self.now) }
    {
        let seen = self.seen;
        let bad = self.bad;
        let text = format!(in alloc; "{seen} seen {bad} bad")?;
        Text::lossy(alloc, text.as_str())
    }
}

// Returns a count plus one, at most `Score::MOST`.
fn one_more(count: u64) -> u64
    ensures { result ≡ one_more count }
{
    count.saturating_add(1).min(Score::MOST)
}
