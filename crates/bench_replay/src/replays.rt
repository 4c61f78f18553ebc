//! A core that repeats the log of another.

ghost use Rattle.std.specs.Prelude.{◌≡◌, ◌≤◌, ◌∷◌, [], false, true, length, IfOk, IfSome, OnErr, OnOk, Some};
ghost use Rattle.bench_history.specs.Next.{IsNext};
ghost use Rattle.bench_core.specs.Cores.{IsAsk, Nothing, answer_in, core_after, failed_from, turn_of};
ghost use Rattle.bench_replay.specs.Replays.{HasNext, log_at};

use crate::entries::{answer_in, is_declined, word_of};
use crate::words::KnownWords;
use bench_core::{Core, CoreFault, Health, Turn};
use bench_script::Script;
use std::alloc::{AllocError, Global};
use std::marker::Model;
use uvm_object::{Acts, Entry};

/// A core that repeats the log of another, entry by entry. Contracts see both cores. The repeating core has the first entries of the log,
/// so its queries answer as those of the other core did after these entries.
#[derive(Drop)]
pub struct Replay<'a> {
    alloc: Global,
    ended: &'a Core,
    core: Core,
}

impl<'a> Model for Replay<'a> {
    ghost use Rattle.bench_replay.specs.Replays.{IsReplay, ReplayValue};

    ghost Value = { ReplayValue };

    ghost view = { λ r. record { ended = r.ended.now; core = r.core } };

    ghost invariant = { λ r. IsReplay r.ended.now r.core };
}

impl<'a> Replay<'a> {
    /// Begins to repeat the log of a core, without an entry. `script` is the script of that core. Errors: `NoTest` if the script has no
    /// test; `Memory` (out of memory).
    pub fn new(alloc: Global, ended: &'a Core, script: Script) -> Result<Replay<'a>, CoreFault>
        requires { script ≡ ended.now.script }
        ensures { IfOk result (λ replay. (replay.ended ≡ ended.now) × (replay.core.history ≡ [])) }
    {
        Ok(Replay {
            alloc,
            ended,
            core: Core::new(alloc, script)?,
        })
    }

    /// Returns the core that repeats the log.
    pub fn core(&self) -> &Core
        ensures core { result.now ≡ self.now.core }
        ensures script { result.now.script ≡ self.now.ended.script }
        ensures part { result.now.history ≡ log_at self.now.ended.history (length result.now.history) }
        ensures few { length result.now.history ≤ length self.now.ended.history }
    {
        &self.core
    }

    /// Makes the next entry of the log, and returns true; returns false if there is none left. Errors: out of memory. Then no entry is made.
    pub fn advance(&mut self) -> Result<bool, AllocError>
        ensures made { IfOk result (λ made. made ≡ true → HasNext self.old.core.history self.new.core.history) }
        ensures all { IfOk result (λ made. made ≡ false → (length self.old.core.history ≡ length self.old.ended.history) × (self.new ≡ self.old)) }
        ensures err { OnErr result (self.new.core.history ≡ self.old.core.history) }
        ensures ended { self.new.ended ≡ self.old.ended }
    {
        let Some(entry) = self.ended.log().get(self.core.log().len()) else {
            return Ok(false);
        };
        repeat(self.alloc, &mut self.core, entry)?;
        Ok(true)
    }
}

// Makes the next entry of a core as the given one. Errors: out of memory. Then no entry is made.
fn repeat(alloc: Global, core: &mut Core, entry: &Entry) -> Result<(), AllocError>
    requires settled { core.old.standing ≡ Nothing }
    requires next { IsNext core.old.script core.old.history entry.now }
    ensures ok { OnOk result (core.new.history ≡ entry.now ∷ core.old.history) }
    ensures err { OnErr result (core.new.history ≡ core.old.history) }
    ensures script { core.new.script ≡ core.old.script }
    ensures settled { core.new.standing ≡ Nothing }
{
    let acts = answer_in(alloc, entry)?;
    let word = [word_of(entry)];
    let mut words = KnownWords::new(&word);
    loop {
        match core.next(&mut words) {
            Ok(Turn::Leave { .. }) => (),
            Ok(Turn::Moved) => return Ok(()),
            Ok(Turn::Need) => {
                fill(core, entry);
                return Ok(());
            }
            Ok(Turn::Ask { .. }) => return hear(core, acts),
            Ok(Turn::Over) => unreachable!(),
            Err(_) => return Err(AllocError),
        }
    }
}

// Makes or declines the object that a core needs, as in the given entry.
fn fill(core: &mut Core, entry: &Entry)
    requires needed { turn_of core.old.standing ≡ Some Turn.Need }
    requires next { IsNext core.old.script core.old.history entry.now }
    ensures entry { core.new.history ≡ entry.now ∷ core.old.history }
    ensures script { core.new.script ≡ core.old.script }
    ensures settled { core.new.standing ≡ Nothing }
{
    if is_declined(entry) {
        core.declined();
    } else {
        let _who = core.made();
    }
}

// Records the answer to the pending call. Errors: out of memory.
fn hear(core: &mut Core, acts: Acts) -> Result<(), AllocError>
    requires { IsAsk (turn_of core.old.standing) }
    ensures ok { OnOk result (IfSome (answer_in core.old.standing acts) (λ entry. core.new ≡ core_after entry core.old)) }
    ensures err { OnErr result (core.new ≡ failed_from Health.Broken core.old) }
{
    match core.heard(acts) {
        Ok(()) => Ok(()),
        Err(_) => Err(AllocError),
    }
}
