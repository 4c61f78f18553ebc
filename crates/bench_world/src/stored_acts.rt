//! Performs the next action of the last answer.

ghost use Rattle.std.specs.Prelude.{◌≡◌, OnOk, OnErr, IfOk, true};
ghost use Rattle.std.specs.Option.{option_copied};
ghost use Rattle.bench_history.specs.History.{remaining_acts, head_of};
ghost use Rattle.bench_world.specs.Worlds.{IsActed, MayAct, MayPerform, broken};
ghost use Rattle.bench_history.specs.Next.{next_of};

use crate::pending::Pending;
use crate::worlds::World;
use bench_history::laws;
use std::alloc::AllocError;
use uvm_object::{ActRef, StoredAct};
use world_entries::stored_acts::{carry_out, stored_act_at};

impl World {
    /// Returns the next action of the last answer, or `None` if none is left. Requires a consistent world.
    pub fn next_act(&self) -> Option<ActRef<'_>>
        requires { self.now.sound ≡ true }
        ensures { result ≡ head_of (remaining_acts self.now.script self.now.history) }
    {
        match self.next_left() {
            Some(stored_act) => Some(stored_act.act()),
            None => None,
        }
    }

    /// Performs the next action of the last answer. The action is performed or rejected, and its entry is appended. If the action needs an
    /// object, the log and the services are unchanged and `need` returns the object. `made` or `declined` then appends the entry, for which
    /// capacity is reserved. Requires a consistent world whose log is not full, and that an action comes next. Errors: out of memory; the
    /// log is unchanged, and the world is no longer consistent.
    #[inline(never)]
    pub fn did(&mut self) -> Result<(), AllocError>
        requires { MayAct self.old }
        ensures ok { OnOk result (IsActed (next_of self.old.script self.old.history) self.old self.new) }
        ensures err { OnErr result (self.new ≡ broken self.old) }
    {
        let stored_act = self.left_stored_act()?;
        self.perform(stored_act)
    }

    // Returns the next action of the last answer, to be stored in its entry. Requires that an action comes next.
    fn left_stored_act(&mut self) -> Result<StoredAct, AllocError>
        requires { MayAct self.old }
        ensures next { IfOk result (λ stored_act. MayPerform self.old stored_act) }
        ensures same { OnOk result (self.new ≡ self.old) }
        ensures err { OnErr result (self.new ≡ broken self.old) }
    {
        // An action is left.
        laws::acts_go_in_order();
        match self.next_stored_act() {
            Ok(Some(stored_act)) => Ok(stored_act),
            Ok(None) => unreachable!(),
            Err(_) => Err(self.fail()),
        }
    }

    // Returns the next action, to be stored in its entry, or `None` if none is left.
    pub(crate) fn next_stored_act(&self) -> Result<Option<StoredAct>, AllocError>
        requires { self.now.sound ≡ true }
        ensures { IfOk result (λ stored_act. stored_act ≡ head_of (remaining_acts self.now.script self.now.history)) }
    {
        match self.next_left() {
            Some(stored_act) => Ok(Some(stored_act.share()?)),
            None => Ok(None),
        }
    }

    // Returns the next action of the last answer if one is left. Before the first answer it is the creation of the test.
    fn next_left(&self) -> Option<&StoredAct>
        requires { self.now.sound ≡ true }
        ensures { option_copied result ≡ head_of (remaining_acts self.now.script self.now.history) }
    {
        let answer = &self.services.answer;
        match answer.place {
            _ if answer.noted => None,
            Some(place) => stored_act_at(&self.log, place, answer.done),
            None if answer.done == 0 => Some(&self.creation),
            None => None,
        }
    }

    // Performs or rejects an action of the last answer, or lets it wait for its object.
    fn perform(&mut self, stored_act: StoredAct) -> Result<(), AllocError>
        requires { MayPerform self.old stored_act }
        ensures ok { OnOk result (IsActed (next_of self.old.script self.old.history) self.old self.new) }
        ensures err { OnErr result (self.new ≡ broken self.old) }
    {
        // A call that an action causes is due in an active phase, and one more report can be counted.
        laws::acts_are_in_phase();
        laws::reports_are_few();
        // In a phase that takes time the wiring is closed. The performer of an action exists.
        laws::tasks_follow_connect();
        laws::performers_are_there();
        laws::drivers_are_there();
        self.sound = false;
        self.pending = None;
        let (log, services, leaving) = (&mut self.log, &mut self.services, &mut self.leaving);
        match carry_out(log, services, self.alloc, stored_act, leaving)? {
            None => {
                self.sound = true;
                Ok(())
            }
            Some(creation) => {
                self.pending = Some(Pending::Creation(creation));
                self.sound = true;
                Ok(())
            }
        }
    }

    // Marks the world as inconsistent after an allocation failed.
    pub(crate) fn fail(&mut self) -> AllocError
        ensures { self.new ≡ broken self.old }
    {
        self.sound = false;
        self.pending = None;
        AllocError
    }
}
