//! Appends the entries of a log that no action causes: kernel entries, answers, grants and transfers.

ghost use Rattle.std.specs.Prelude.{◌≡◌, ◌<◌, true, OnOk, OnErr, IfSome};
ghost use Rattle.uvm_object.specs.declared.entries.Entry.TheVariants.{Passed};
ghost use Rattle.bench_history.specs.Cases.{Exactly};
ghost use Rattle.world_entries.specs.KernelEntries.{entry_of};
ghost use Rattle.bench_world.specs.Worlds.{IsGranted, MayAnswer, MayEnter, MayGrant, answer_in, world_after, broken};

use crate::pending::{PendingCall, take_call};
use crate::worlds::World;
use bench_history::laws;
use std::alloc::AllocError;
use uvm_object::{Acts, Entry, Grant, LoggedPassage, Passage};
use uvm_tree::NodeId;
use world_entries::kernel_entries::{self, KernelEntry};
use world_entries::logs::push;
use world_entries::{answers, grants};

impl World {
    /// Appends a kernel entry (`KernelEntry`) to the log and updates the services. Requires a consistent world whose log is not full, and
    /// that this entry comes next. Errors: out of memory; the log is unchanged, and the world is no longer consistent.
    #[inline(never)]
    pub fn enter(&mut self, kernel_entry: KernelEntry) -> Result<(), AllocError>
        requires { MayEnter self.old (Exactly (entry_of kernel_entry)) }
        ensures ok { OnOk result (self.new ≡ world_after (entry_of kernel_entry) self.old) }
        ensures err { OnErr result (self.new ≡ broken self.old) }
    {
        // The time is within its limit, so a wait can be added to it. One more report can be counted.
        laws::time_stays_within_its_limit();
        laws::reports_are_few();
        let _limit = self.script.time_limit();
        self.sound = false;
        self.pending = None;
        let place = self.log.next_place();
        let (entry, leaving) = kernel_entries::enter(
            &mut self.services,
            self.alloc,
            place,
            kernel_entry,
        )?;
        self.leaving = leaving;
        push(&mut self.log, entry)?;
        self.sound = true;
        Ok(())
    }

    /// Records the answer to the pending call: the actions `acts`. Requires a consistent world whose log is not full, and that the pending
    /// call comes next. Errors: out of memory; the log is unchanged, and the world is no longer consistent.
    #[inline(never)]
    pub fn heard(&mut self, acts: Acts) -> Result<(), AllocError>
        requires { MayAnswer self.old self.old.standing }
        ensures ok { OnOk result (IfSome (answer_in self.old.standing acts) (λ entry. self.new ≡ world_after entry self.old)) }
        ensures err { OnErr result (self.new ≡ broken self.old) }
    {
        self.sound = false;
        self.leaving.clear();
        let Some(pending_call) = take_call(&mut self.pending) else {
            unreachable!()
        };
        let PendingCall { who, call, origin } = pending_call;
        let (place, count) = (self.log.next_place(), acts.len());
        answers::hear(&mut self.services, place, who.copy(), &call, origin, count);
        let entry = Entry::heard(self.alloc, who, &call, origin, acts)?;
        push(&mut self.log, entry)?;
        self.sound = true;
        Ok(())
    }

    /// Records the grant of an item at a sequencer, and schedules the call to the sequence that may send it (Clause 15). Requires a
    /// consistent world whose log is not full, and that a grant at this sequencer comes next. `word` is the random number, and is given
    /// exactly if one decides. Errors: out of memory; the log is unchanged, and the world is no longer consistent.
    #[inline(never)]
    pub fn granted(&mut self, sequencer: NodeId, word: Option<u64>) -> Result<(), AllocError>
        requires { MayGrant self.old sequencer word }
        ensures ok { OnOk result (IsGranted sequencer word self.old self.new) }
        ensures err { OnErr result (self.new ≡ broken self.old) }
    {
        self.sound = false;
        self.pending = None;
        self.leaving.clear();
        let place = self.log.next_place();
        let id = grants::grant(&mut self.services, place, sequencer, word)?;
        let grant = Grant { id, word };
        push(&mut self.log, Entry::Granted { sequencer, grant })?;
        self.sound = true;
        Ok(())
    }

    /// Records a transfer at a FIFO, which completes a waiting request, and schedules the call to the requester (Clause 12). Requires a
    /// consistent world whose log is not full, and that this entry comes next. Errors: out of memory; the log is unchanged, and the world
    /// is no longer consistent.
    #[inline(never)]
    pub fn passed(&mut self, fifo: NodeId, passage: Passage) -> Result<(), AllocError>
        requires { MayEnter self.old (Exactly (Passed fifo passage)) }
        ensures ok { OnOk result (self.new ≡ world_after (Passed fifo passage) self.old) }
        ensures err { OnErr result (self.new ≡ broken self.old) }
    {
        self.sound = false;
        self.pending = None;
        self.leaving.clear();
        let place = self.log.next_place();
        grants::pass_item(&mut self.services, place, fifo, &passage)?;
        let passage = LoggedPassage::new(self.alloc, passage)?;
        push(&mut self.log, Entry::Passed { fifo, passage })?;
        self.sound = true;
        Ok(())
    }
}
