//! The kernel of a testbench.

ghost use Rattle.std.specs.Prelude.{◌≡◌, ◌∷◌, [], true, false, All, Contains, OnOk, OnErr, IfOk, IfErr, IfSome, IfNone, IsSome, None, is_some, length, option_copied};
ghost use Rattle.std.specs.List.{IsDistinct};
ghost use Rattle.std.specs.List.Sorted.{IsPermutation};
ghost use Rattle.bench_history.specs.History.{nodes_of};
ghost use Rattle.bench_history.specs.Limits.{log_limit};
ghost use Rattle.bench_history.specs.Next.{next_of, declined_in, IsLegal};
ghost use Rattle.bench_history.specs.Reports.{report_commands};
ghost use Rattle.uvm_report.specs.Changes.{ReportsAgree};
ghost use Rattle.bench_core.specs.Cores.{IsDrawing, IsUnmade, core_after, is_sound};
ghost use Rattle.bench_core.specs.Cores.{Nothing};
ghost use Rattle.bench_core.specs.declared.cores.Health.TheVariants.{Good};
ghost use Rattle.bench_kernel.specs.Orders.{IsFirstBack};
ghost use Rattle.bench_kernel.specs.Kernels.{AreAllHeld, AreHonest, AreToldNext, WasMade, abandoned, is_done, open_need, types_made, wanted_in, who_held};
ghost use Rattle.uvm_object.specs.Objects.{same_who};
ghost use Rattle.bench_kernel.specs.Steps.{IsMisfit, IsStep, IsSupplied, drawn_in};

use crate::seating::{hear, reserve, seat};
use crate::{Seats, SequenceSeats, laws};
use bench_core::{Core, CoreFault, Need, Turn};
use bench_script::Script;
use rand_core::Rng;
use std::alloc::Global;
use std::marker::Model;
use uvm_object::{Log, UvmObject, Who};
use uvm_report::Reports;

/// The result of `Kernel::step`.
#[derive(Drop)]
pub enum Step<O> {
    /// A request for an object, which `need` returns.
    Need,
    /// A new log entry.
    Moved,
    /// The end of a sequence (IEEE 1800.2-2020, Clause 14), whose object is returned.
    Back {
        /// The sequence, with its number and its home.
        who: Who,
        /// The object of the sequence.
        object: O,
    },
    /// The end of the run.
    Over,
}

/// The reason why an object is not accepted.
#[derive(Clone, Copy, PartialEq, Eq)]
pub enum Misfit {
    /// A type other than the needed one.
    WrongType,
    /// Out of memory.
    Memory,
}

/// A supplied object that is not accepted, unchanged.
#[derive(Drop)]
pub struct Unfit<O> {
    /// The object that was supplied.
    pub object: O,
    /// The reason why it is not accepted.
    pub why: Misfit,
}

/// A testbench that runs: the core, and the objects that it calls. Contracts see the core, and the held objects in no order, each with its
/// component or sequence. They also see whether the kernel has failed, and for which component or sequence a call has no entry in the log,
/// if for any. A kernel cannot be dropped: `finish` ends it once each object was returned.
pub struct Kernel<O: UvmObject> {
    alloc: Global,
    core: Core,
    seats: Seats<O>,
    sequences: SequenceSeats<O>,
    abandoned: bool,
    // For whom a call has no entry, since memory ran out in its object or after its answer.
    unknown: Option<Who>,
}

impl<O: UvmObject> Model for Kernel<O> {
    ghost use Rattle.bench_kernel.specs.Seats.{paths_in};
    ghost use Rattle.bench_kernel.specs.Seating.{all_held};
    ghost use Rattle.bench_kernel.specs.Kernels.{KernelValue, IsKernel, AreSeated, failed_of};

    ghost Value = { KernelValue O };

    ghost view = { λ k. record { core = k.core; held = all_held k.seats.taken k.sequences.held; failed = failed_of k.abandoned k.unknown k.core.health; unknown = k.unknown } };

    ghost invariant = { λ k. IsKernel O.view O.name O.says (record { core = k.core; held = all_held k.seats.taken k.sequences.held; failed = failed_of k.abandoned k.unknown k.core.health; unknown = k.unknown })
        × AreSeated k.core.history (paths_in k.seats.taken) k.sequences.count k.sequences.held };
}

impl<O: UvmObject> Kernel<O> {
    /// Creates the kernel of a script, with an empty log and no object. Errors: `NoTest` if the script has no test; `Memory` (out of
    /// memory).
    pub fn new(alloc: Global, script: Script) -> Result<Kernel<O>, CoreFault>
        ensures ok { IfOk result (λ kernel. IsSome script.test × (kernel ≡ record {
          core = record { script = script; history = []; standing = Nothing; health = Good; leaving = [] };
          held = [];
          failed = false;
          unknown = None;
        })) }
        ensures err { IfErr result (IsUnmade script) }
    {
        Ok(Kernel {
            alloc,
            core: Core::new(alloc, script)?,
            seats: Seats::new(alloc),
            sequences: SequenceSeats::new(alloc),
            abandoned: false,
            unknown: None,
        })
    }

    /// Performs one step. Returns the object of each ended sequence once, in ascending order of number and before any further entry
    /// (`Back`). Otherwise appends one entry, for which it calls at most one object (`Moved`). If an object is needed, requests it until it
    /// is supplied or declined (`Need`). Returns `Over` when the run has ended. One random number is consumed if it decides which sequence
    /// is granted the next item (Clause 15), otherwise none. Errors: `Failed` if the kernel has failed; `LogFull` if an entry would come
    /// next and the log is full; `Memory` (out of memory, also in the object that is called). After an error the kernel has failed.
    /// `Memory` may also lose a random number.
    pub fn step<R: Rng>(&mut self, words: &mut R) -> Result<Step<O>, CoreFault>
        ensures step { IsStep O.view O.name O.says result self.old self.new }
        ensures needed { IfOk result (λ step. step ≡ Step.Need → IsSome (open_need self.new)) }
        ensures words { IsDrawing R.stream (drawn_in self.new.core.history) result words.old words.new }
    {
        laws::hold();
        if self.has_failed() {
            return Err(CoreFault::Failed);
        }
        match self.core.next(words) {
            Ok(Turn::Leave { who }) => {
                let object = self.sequences.remove(&who);
                Ok(Step::Back { who, object })
            }
            Ok(Turn::Need) => Ok(Step::Need),
            Ok(Turn::Ask { who }) => {
                let Some(call) = self.core.call() else {
                    unreachable!()
                };
                self.unknown = Some(who.copy());
                let answer = hear(&mut self.seats, &mut self.sequences, &who, self.alloc, call);
                let Ok(acts) = answer else {
                    return Err(CoreFault::Memory);
                };
                self.core.heard(acts)?;
                self.unknown = None;
                Ok(Step::Moved)
            }
            Ok(Turn::Moved) => Ok(Step::Moved),
            Ok(Turn::Over) => Ok(Step::Over),
            Err(fault) => Err(fault),
        }
    }

    /// Returns the object that is needed, or `None` if none is needed or the kernel has failed.
    pub fn need(&self) -> Option<&Need>
        ensures { option_copied result ≡ open_need self.now }
    {
        if self.has_failed() {
            return None;
        }
        self.core.need()
    }

    /// Supplies the needed object, which then is that of the new component or sequence. Requires that an object is needed. Errors:
    /// `WrongType` if its type is not the needed one; `Memory` (out of memory). On an error the object is returned unchanged and is still
    /// needed.
    pub fn supply(&mut self, object: O) -> Result<(), Unfit<O>>
        requires { IsSome (open_need self.old) }
        ensures ok { OnOk result (IsSupplied O.view O.name O.says object self.old self.new) }
        ensures why { IfErr result (λ unfit. IsMisfit unfit.why (O.name object) (wanted_in self.old)) }
        ensures back { IfErr result (λ unfit. unfit.object ≡ object) }
        ensures err { OnErr result (self.new ≡ self.old) }
    {
        laws::hold();
        let Some(need) = self.core.need() else {
            unreachable!()
        };
        if *object.type_name() != need.type_name {
            return Err(Unfit {
                object,
                why: Misfit::WrongType,
            });
        }
        let room = reserve(&mut self.seats, &mut self.sequences);
        let (Ok(path), Ok(())) = (need.path.copy(), room) else {
            return Err(Unfit {
                object,
                why: Misfit::Memory,
            });
        };
        let who = self.core.made();
        seat(&mut self.seats, &mut self.sequences, who, path, object);
        Ok(())
    }

    /// Declines to supply the needed object: its creation or start is rejected. Requires that an object is needed. Allocates no memory.
    pub fn decline(&mut self)
        requires { IsSome (open_need self.old) }
        ensures entry { IfSome (declined_in (next_of self.old.core.script self.old.core.history)) (λ entry. self.new ≡ record self.old { core = core_after entry self.old.core }) }
        ensures one { IsSome (declined_in (next_of self.old.core.script self.old.core.history)) }
    {
        laws::hold();
        self.core.declined();
    }

    /// Removes a held object and returns it with its component or sequence, or returns `None` if no object is held. Sequences come first,
    /// in ascending order of number; then components in pre-order. Requires that the run has ended or the kernel has failed. Allocates no
    /// memory.
    pub fn give_back(&mut self) -> Option<(Who, O)>
        requires { is_done self.old ≡ true }
        ensures some { IfSome result (λ back. IsPermutation (back ∷ self.new.held) self.old.held) }
        ensures first { IfSome result (λ back. IsFirstBack (nodes_of self.old.core.history) back.0 (who_held self.new)) }
        ensures none { IfNone result (self.old.held ≡ []) }
        ensures rest { self.new ≡ record self.old { held = self.new.held } }
        ensures unchanged { IfNone result (self.new ≡ self.old) }
    {
        if let Some(back) = self.sequences.pop_first() {
            return Some(back);
        }
        self.seats.pop_first()
    }

    /// Ends a kernel that holds no object. Allocates no memory.
    pub fn finish(self)
        requires { self.held ≡ [] }
    {
        let _core = self.into_core();
    }

    /// Ends a kernel that holds no object, and returns its core, with the log. Allocates no memory.
    pub fn into_core(self) -> Core
        requires { self.held ≡ [] }
        ensures { result ≡ self.core }
    {
        let Kernel {
            alloc: _,
            core,
            seats: _,
            sequences: _,
            abandoned: _,
            unknown: _,
        } = self;
        core
    }

    /// Aborts the run: the kernel has failed from now on, and only returns its objects. Changes nothing if the run has ended, or the kernel
    /// has failed already. Allocates no memory.
    pub fn abandon(&mut self)
        ensures { self.new ≡ abandoned self.old }
    {
        if !self.core.is_over() {
            self.abandoned = true;
        }
    }

    /// Returns a reference to the log, which is always legal. The answers in it conform to the relations of the held objects (`AreHonest`).
    /// Its limit in entries is that of the script's version.
    pub fn log(&self) -> &Log
        ensures entries { result.now.entries ≡ self.now.core.history }
        ensures legal { IsLegal self.now.core.script self.now.core.history }
        ensures limit { result.now.limit ≡ log_limit self.now.core.script }
        ensures honest { AreHonest O.view O.says self.now }
    {
        self.core.log()
    }

    /// Returns the report server (IEEE 1800.2-2020, Clause 6), whose results follow from the log. Returns `None` after an out-of-memory
    /// error of the core.
    pub fn reports(&self) -> Option<&Reports>
        ensures given { IfSome result (λ reports. ReportsAgree reports.now (report_commands self.now.core.script self.now.core.history)) }
        ensures variant { is_some result ≡ is_sound self.now.core.health }
    {
        self.core.reports()
    }

    /// Returns the core.
    pub fn core(&self) -> &Core
        ensures { result.now ≡ self.now.core }
    {
        &self.core
    }

    /// Returns the number of held objects. They are of distinct components and sequences that were made, and each has the type that was
    /// made. Until the run has ended or the kernel has failed, the object of each component and of each active sequence is held. So is that
    /// of each ended sequence that was not returned yet. Until the kernel has failed, the sequences whose objects `step` returns next have
    /// ended, and are in ascending order of number.
    pub fn live(&self) -> usize
        ensures count { result ≡ length self.now.held }
        ensures distinct { IsDistinct same_who (who_held self.now) }
        ensures made { All (WasMade self.now.core.history) (who_held self.now) }
        ensures named { All (λ seat. Contains (types_made self.now.core.script self.now.core.history) (seat.0, O.name seat.1)) self.now.held }
        ensures whole { is_done self.now ≡ false → AreAllHeld self.now.core.history self.now.core.leaving (who_held self.now) }
        ensures told { self.now.failed ≡ false → AreToldNext self.now.core.history self.now.core.leaving }
    {
        self.seats.len() + self.sequences.len()
    }

    // Returns whether the kernel has failed: it was abandoned, a call has no entry, or its core has failed.
    fn has_failed(&self) -> bool
        ensures { result ≡ self.now.failed }
    {
        self.abandoned || self.unknown.is_some() || self.core.has_failed()
    }
}
