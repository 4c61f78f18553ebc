//! The list of the sequences that were started.

ghost use Rattle.std.specs.Prelude.{◌≡◌, ◌+◌, ◌<◌, ◌≤◌, ◌∷◌, ◌++◌, [], length, None, Some, OnOk, OnErr, IfOk, IfSome, IsOk, IsSome, is_some, option_map, nat_le, vec_len, vec_capacity};
ghost use Rattle.std.specs.Option.{option_copied, option_and_then, option_to_list, ForSome};
ghost use Rattle.uvm_sequences.specs.Sequences.{capacity_of, name_at, names_of, numbered, parent_of, step_at, step_after, with_step, stepped, finished, is_under, IsSequences};
ghost use Rattle.uvm_sequences.specs.Representation.{most_sequences, place_in, start_of, starts_of, steps_of};

use std::alloc::{AllocError, Global};
use std::marker::Model;
use uvm_glob::Name;
use uvm_tree::NodeId;

/// A sequence: its number, from 1, in the order in which sequences were started. `Sequences::start` returns these numbers. A
/// `SeqId` of another list of sequences means the sequence of that number.
#[derive(Clone, Copy, PartialEq, Eq, Hash)]
pub struct SeqId {
    number: u32,
}

impl Model for SeqId {
    ghost use Rattle.std.specs.Prelude.{ℕ};

    ghost Value = { ℕ };

    ghost view = { λ id. id.number };

    ghost inverse = { λ n. record { number = n } };
}

impl SeqId {
    /// Returns the number.
    pub fn number(self) -> u64
        ensures { result ≡ self }
    {
        u64::from(self.number)
    }
}

/// The step of an active sequence (the standard's `pre_start`, `body` and `post_start`).
#[derive(Clone, Copy, PartialEq, Eq)]
pub enum SeqStep {
    /// The step before the body.
    PreStart,
    /// The body.
    Body,
    /// The step after the body.
    PostStart,
}

impl SeqStep {
    // Returns the step after this one; `None` after the last.
    fn following(self) -> Option<SeqStep>
        ensures { result ≡ step_after self }
    {
        match self {
            SeqStep::PreStart => Some(SeqStep::Body),
            SeqStep::Body => Some(SeqStep::PostStart),
            SeqStep::PostStart => None,
        }
    }
}

// How a sequence was started, and its step while it is active.
#[derive(Drop)]
struct Sequence {
    home: NodeId,
    parent: Option<SeqId>,
    name: Name,
    priority: u16,
    step: Option<SeqStep>,
}

/// The sequences that were started (IEEE 1800.2-2020, Clause 14). Each has its sequencer, its parent, its name and its priority,
/// and a step while it is active. A sequence that has ended keeps its number, its parent and its children.
///
/// In contracts, the value is the start and the step of each sequence, newest first, and for how many more there is reserved
/// capacity. Cost: each call takes constant time, with these exceptions. `start` and `reserve` may move all sequences to a larger
/// allocation. `is_under` and `names` go from parent to parent. Only `start`, `reserve` and `names` allocate memory.
pub struct Sequences {
    // In the order of their numbers.
    sequences: Vec<Sequence>,
}

// (Written by hand, so that crates that use the sequences need no proof about the drop of the field.)
impl Drop for Sequences {
    fn drop(self) {
        let Sequences { sequences: _ } = self;
    }
}

impl Model for Sequences {
    ghost use Rattle.std.specs.Prelude.{vec_len, vec_capacity};
    ghost use Rattle.uvm_sequences.specs.Sequences.{SequencesValue, AreStarted};
    ghost use Rattle.uvm_sequences.specs.Representation.{spare_in, starts_of, steps_of};

    ghost Value = { SequencesValue };

    ghost view = { λ s. record { started = starts_of s.sequences.items; steps = steps_of s.sequences.items; spare = spare_in (vec_capacity s.sequences) (vec_len s.sequences) } };

    ghost invariant = { λ s. AreStarted (starts_of s.sequences.items) };
}

impl Sequences {
    /// Creates an empty list of sequences. Allocates no memory.
    pub fn new(alloc: Global) -> Sequences
        ensures started { result.started ≡ [] }
        ensures steps { result.steps ≡ [] }
    {
        Sequences {
            sequences: Vec::new(alloc),
        }
    }

    /// Reserves capacity for one sequence: the next `start` then allocates no memory. Errors, both `AllocError` and only if no
    /// capacity is reserved: out of numbers, which have 32 bits; out of memory. An error changes no sequence. The call never
    /// reduces the reserved capacity.
    pub fn reserve(&mut self) -> Result<(), AllocError>
        ensures started { self.new.started ≡ self.old.started }
        ensures steps { self.new.steps ≡ self.old.steps }
        ensures spare { OnOk result (0 < self.new.spare) }
        ensures room { 0 < self.old.spare → IsOk result }
        ensures kept { self.old.spare ≤ self.new.spare }
    {
        if self.is_full() {
            return Err(AllocError);
        }
        self.sequences.reserve(1)
    }

    /// Starts a sequence on a sequencer, its home, and returns its number (the standard's `start`). Its step is `PreStart`.
    /// Requires a priority of at least 1, and a parent, if one is given, that was started here; the parent may have ended.
    /// Errors, both `AllocError` and only if no capacity is reserved: out of numbers, which have 32 bits; out of memory. An error
    /// starts nothing. The total capacity is never reduced, even by an error.
    pub fn start(
        &mut self,
        home: NodeId,
        parent: Option<SeqId>,
        name: Name,
        priority: u16,
    ) -> Result<SeqId, AllocError>
        requires parent { ForSome parent (λ above. IsSome (numbered self.old.started above)) }
        requires priority { 0 < priority }
        ensures id { IfOk result (λ id. id ≡ length self.old.started + 1) }
        ensures started { OnOk result (self.new.started ≡ record { home = home; parent = parent; name = name; priority = priority } ∷ self.old.started) }
        ensures steps { OnOk result (self.new.steps ≡ Some SeqStep.PreStart ∷ self.old.steps) }
        ensures unchanged { OnErr result ((self.new.started ≡ self.old.started) × (self.new.steps ≡ self.old.steps)) }
        ensures room { 0 < self.old.spare → IsOk result }
        ensures capacity { capacity_of self.old ≤ capacity_of self.new }
    {
        if self.is_full() {
            return Err(AllocError);
        }
        self.sequences.push(Sequence {
            home,
            parent,
            name,
            priority,
            step: Some(SeqStep::PreStart),
        })?;
        Ok(SeqId {
            number: self.sequences.len() as u32,
        })
    }

    /// Moves an active sequence to its next step and returns that step. Returns `None` and changes nothing in the last step,
    /// which `finish` ends, and if the sequence is not active.
    pub fn step(&mut self, id: SeqId) -> Option<SeqStep>
        ensures value { result ≡ option_and_then step_after (step_at self.old.steps id) }
        ensures after { self.new ≡ stepped id result self.old }
    {
        let step = self.step_of(id)?.following()?;
        write_step(&mut self.sequences, id, Some(step));
        Some(step)
    }

    /// Ends a sequence, if it is active.
    pub fn finish(&mut self, id: SeqId)
        ensures { self.new ≡ finished id self.old }
    {
        write_step(&mut self.sequences, id, None);
    }

    /// Returns whether a sequence was started and has not ended.
    pub fn is_live(&self, id: SeqId) -> bool
        ensures live { result ≡ is_some (step_at self.now.steps id) }
        ensures sequences { IsSequences self.now }
    {
        let _ = &self.sequences;
        self.step_of(id).is_some()
    }

    /// Returns the step of an active sequence; `None` if the sequence is not active.
    pub fn step_of(&self, id: SeqId) -> Option<SeqStep>
        ensures { result ≡ step_at self.now.steps id }
    {
        self.sequence(id)?.step
    }

    /// Returns the parent of a sequence, which is the sequence that started it, if any. A parent has a smaller number than its
    /// child, so that the way from parent to parent ends.
    pub fn parent(&self, id: SeqId) -> Option<SeqId>
        ensures parent { result ≡ parent_of self.now.started id }
        ensures older { IfSome result (λ parent. parent < id) }
    {
        let _ = &self.sequences;
        self.sequence(id)?.parent
    }

    /// Returns the sequencer on which a sequence was started; `None` if it was not started.
    pub fn home(&self, id: SeqId) -> Option<NodeId>
        ensures { result ≡ option_map (λ start. start.home) (numbered self.now.started id) }
    {
        Some(self.sequence(id)?.home)
    }

    /// Returns the name of a sequence; `None` if it was not started. Several sequences may have the same name.
    pub fn name(&self, id: SeqId) -> Option<&Name>
        ensures { option_copied result ≡ name_at self.now.started id }
    {
        Some(&self.sequence(id)?.name)
    }

    /// Returns the priority of a sequence, which is at least 1; `None` if it was not started.
    pub fn priority(&self, id: SeqId) -> Option<u16>
        ensures priority { result ≡ option_map (λ start. start.priority) (numbered self.now.started id) }
        ensures positive { IfSome result (λ priority. 0 < priority) }
    {
        let _ = &self.sequences;
        Some(self.sequence(id)?.priority)
    }

    /// Returns the names from the root sequence, which has no parent, down to the sequence itself. The list is empty if the
    /// sequence was not started. Errors: out of memory.
    pub fn names(&self, alloc: Global, id: SeqId) -> Result<Vec<Name>, AllocError>
        ensures { IfOk result (λ names. names.items ≡ names_of self.now.started id) }
    {
        let _ = &self.sequences;
        let mut names = Vec::new(alloc);
        let mut next = Some(id);
        while let Some(at) = next {
            push_some(&mut names, self.name(at))?;
            next = self.parent(at);
        }
        names.reverse();
        Ok(names)
    }

    /// Returns whether a sequence is `above`, or `above` is one of its ancestors: its parent, the parent of that, and so on.
    /// Sequences that have ended count too.
    pub fn is_under(&self, id: SeqId, above: SeqId) -> bool
        ensures { result ≡ is_under self.now.started id above }
    {
        let _ = &self.sequences;
        let mut at = id;
        // A parent has a smaller number than its child.
        while at.number() > above.number() {
            match self.parent(at) {
                Some(parent) => at = parent,
                None => return false,
            }
        }
        at == above
    }

    // Returns whether there are as many sequences as numbers.
    fn is_full(&self) -> bool
        ensures { result ≡ nat_le most_sequences (length self.now.started) }
    {
        self.sequences.len() >= u32::MAX as usize
    }

    // Returns the sequence of a number; `None` if it was not started.
    fn sequence(&self, id: SeqId) -> Option<&Sequence>
        ensures start { option_map start_of (option_copied result) ≡ numbered self.now.started id }
        ensures step { option_map (λ s. s.step) (option_copied result) ≡ numbered self.now.steps id }
    {
        match place_of(id) {
            Some(place) => self.sequences.get(place),
            None => None,
        }
    }
}

// Adds a name at the end, if there is one. Errors: out of memory.
fn push_some(names: &mut Vec<Name>, name: Option<&Name>) -> Result<(), AllocError>
    ensures { OnOk result (names.new.items ≡ names.old.items ++ option_to_list (option_copied name.entry)) }
{
    if let Some(name) = name {
        names.push(*name)?;
    }
    Ok(())
}

// Sets the step of a sequence, if it was started.
fn write_step(sequences: &mut Vec<Sequence>, id: SeqId, step: Option<SeqStep>)
    ensures steps { steps_of sequences.new.items ≡ with_step id step (steps_of sequences.old.items) }
    ensures started { starts_of sequences.new.items ≡ starts_of sequences.old.items }
    ensures length { vec_len sequences.new ≡ vec_len sequences.old }
    ensures capacity { vec_capacity sequences.new ≡ vec_capacity sequences.old }
{
    let Some(place) = place_of(id) else {
        return;
    };
    if place < sequences.len() {
        let sequence = &mut sequences[place];
        sequence.step = step;
    }
}

// Returns the place of the sequence of a number in the list, counted from 0; `None` for number 0.
fn place_of(id: SeqId) -> Option<usize>
    ensures { result ≡ place_in id }
{
    match id.number {
        0 => None,
        number => Some(number as usize - 1),
    }
}
