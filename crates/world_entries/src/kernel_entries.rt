//! The kernel entries: the log entries that no object causes.

ghost use Rattle.std.specs.Prelude.{◌≡◌, ◌∷◌, List, OnOk, IfOk};
ghost use Rattle.uvm_object.specs.declared.entries.Entry.{Entry};
ghost use Rattle.bench_script.specs.Scripts.{ScriptValue};
ghost use Rattle.bench_history.specs.Cases.{Exactly};
ghost use Rattle.bench_history.specs.Sequences.{leaving_of};
ghost use Rattle.world_services.specs.Services.{ServicesMatch};
ghost use Rattle.world_entries.specs.Coming.{PreservesMatch, IsEntryContext};
ghost use Rattle.world_entries.specs.KernelEntries.{CanEnter, entry_of};

use crate::{grants, phases};
use std::alloc::{AllocError, Global};
use uvm_object::{Entry, Fatal, Origin, Reason, Who};
use uvm_phase::Phase;
use uvm_sequences::SeqId;
use uvm_tree::NodeId;
use world_services::services::Services;

/// An entry of the log that the kernel makes without an answer, a random number or an item.
#[derive(Clone, Copy)]
pub enum KernelEntry {
    /// A phase begins (IEEE 1800.2-2020, Clause 9).
    Begin(Phase),
    /// A phase ends, and with it all active sequences that were started in it (Clause 14).
    End(Phase),
    /// Time advances to this value, in ticks.
    Time(u64),
    /// A sequencer grants the lock of a sequence, the next to grant, and the sequence receives a call (Clause 15).
    Locked(NodeId, SeqId),
    /// The drain of a node ends, which began with this origin: the count that it delayed is propagated to the parent (10.5).
    Drained(NodeId, Origin),
    /// The kernel reports at a node, and the remaining actions of the last answer are skipped.
    Note(Fatal, NodeId),
    /// The run has ended: no entry follows.
    Over(Reason),
}

/// Records an entry at a place of the log in the services. Returns the log entry, and the sequences that it ends in ascending order of
/// number. Errors: out of memory.
pub fn enter(
    services: &mut Services,
    alloc: Global,
    place: u32,
    kernel_entry: KernelEntry,
) -> Result<(Entry, Vec<Who>), AllocError>
    requires next { IsEntryContext (λ _. Exactly (entry_of kernel_entry)) place services.old }
    requires can { CanEnter kernel_entry services.old }
    ensures entry { IfOk result (λ made. made.0 ≡ entry_of kernel_entry) }
    ensures leaving { IfOk result (λ made. (script : ScriptValue) (history : List Entry) → ServicesMatch script history services.old → made.1.items ≡ leaving_of (entry_of kernel_entry ∷ history)) }
    ensures goes_on { OnOk result (PreservesMatch (λ _. Exactly (entry_of kernel_entry)) (entry_of kernel_entry) place services.old services.new) }
{
    match kernel_entry {
        KernelEntry::Begin(phase) => {
            phases::begin(services, phase);
            Ok((Entry::Begin(phase), Vec::new(alloc)))
        }
        KernelEntry::End(phase) => {
            let leaving = phases::end(services, alloc, place, phase)?;
            Ok((Entry::End(phase), leaving))
        }
        KernelEntry::Time(time) => {
            phases::pass_time(services, time);
            Ok((Entry::Time(time), Vec::new(alloc)))
        }
        KernelEntry::Locked(sequencer, id) => {
            grants::lock(services, place, sequencer, id)?;
            Ok((Entry::Locked { sequencer, id }, Vec::new(alloc)))
        }
        KernelEntry::Drained(node, origin) => {
            phases::end_drain(services, place, node, origin)?;
            Ok((Entry::Drained { node, origin }, Vec::new(alloc)))
        }
        KernelEntry::Note(fatal, node) => {
            phases::note(services, alloc, fatal, node)?;
            Ok((Entry::Note { fatal, node }, Vec::new(alloc)))
        }
        KernelEntry::Over(reason) => {
            phases::finish(services);
            Ok((Entry::Over(reason), Vec::new(alloc)))
        }
    }
}
