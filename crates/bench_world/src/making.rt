//! What a world waits for: a call is asked; an object is made or declined.

ghost use Rattle.std.specs.Prelude.{◌≡◌, IfSome, IsSome, Some, true};
ghost use Rattle.std.specs.Option.{option_copied};
ghost use Rattle.bench_history.specs.Next.{next_of, made_in, declined_in};
ghost use Rattle.bench_world.specs.Worlds.{Asked, made_who, need_of, pending_call_in, world_after};

use crate::pending::{Pending, PendingCall, take_parts};
use crate::worlds::World;
use bench_history::{Need, laws};
use uvm_object::{Fatal, Who};
use world_entries::making::{PendingParts, make};
use world_entries::performing::enter;
use world_services::act_results::refused_by;

impl World {
    /// Stores a call that waits for its answer, which `heard` records. Requires a consistent world. Allocates no memory.
    pub fn ask(&mut self, pending_call: PendingCall)
        requires { self.old.sound ≡ true }
        ensures { self.new ≡ record self.old { standing = Asked pending_call.who pending_call.call pending_call.origin } }
    {
        self.pending = Some(Pending::Call(pending_call));
    }

    /// Returns the call that waits for its answer, or `None` if none does.
    pub fn pending_call(&self) -> Option<&PendingCall>
        ensures { option_copied result ≡ pending_call_in self.now.standing }
    {
        match &self.pending {
            Some(Pending::Call(pending_call)) => Some(pending_call),
            Some(Pending::Creation(_)) | None => None,
        }
    }

    /// Returns the object for which the next action waits, or `None` if it waits for none.
    pub fn need(&self) -> Option<&Need>
        ensures { option_copied result ≡ need_of self.now.standing }
    {
        match &self.pending {
            Some(Pending::Creation(creation)) => Some(&creation.parts().need),
            Some(Pending::Call(_)) | None => None,
        }
    }

    /// Records that the needed object is made, and returns the component or sequence that it is. Requires that an action waits for it.
    /// Allocates no memory.
    pub fn made(&mut self) -> Who
        requires { IsSome (need_of self.old.standing) }
        ensures who { made_who self.old.history (next_of self.old.script self.old.history) ≡ Some result }
        ensures entry { IfSome (made_in (next_of self.old.script self.old.history)) (λ entry. self.new ≡ world_after entry self.old) }
    {
        laws::needs_are_wanted();
        laws::performers_are_there();
        laws::drivers_are_there();
        laws::acts_are_in_phase();
        self.sound = false;
        self.leaving.clear();
        let Some(parts) = take_parts(&mut self.pending) else {
            unreachable!()
        };
        let PendingParts {
            need,
            stored_act,
            home,
            name,
            declined: _,
        } = parts;
        let place = self.log.next_place();
        let services = &mut self.services;
        let (who, outcome) = make(
            services,
            stored_act.act().get(),
            home,
            name,
            need.type_name,
            place,
        );
        let Ok(()) = enter(&mut self.log, &mut services.answer, outcome, stored_act) else {
            unreachable!()
        };
        self.sound = true;
        who
    }

    /// Records that the needed object is declined: its action is rejected with `Fatal::NoObject`. Requires that an action waits for it.
    /// Allocates no memory.
    pub fn declined(&mut self)
        requires { IsSome (need_of self.old.standing) }
        ensures { IfSome (declined_in (next_of self.old.script self.old.history)) (λ entry. self.new ≡ world_after entry self.old) }
    {
        laws::needs_are_wanted();
        laws::performers_are_there();
        laws::drivers_are_there();
        laws::acts_are_in_phase();
        laws::reports_are_few();
        self.sound = false;
        self.leaving.clear();
        let Some(parts) = take_parts(&mut self.pending) else {
            unreachable!()
        };
        let PendingParts {
            stored_act,
            declined,
            ..
        } = parts;
        let services = &mut self.services;
        let Ok(refused) = refused_by(services, self.alloc, Fatal::NoObject, &declined) else {
            unreachable!()
        };
        let Ok(()) = enter(&mut self.log, &mut services.answer, refused, stored_act) else {
            unreachable!()
        };
        self.sound = true;
    }
}
