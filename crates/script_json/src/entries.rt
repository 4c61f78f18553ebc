//! The members of an object by the kind of its entry.

use crate::logs::Scene;
use crate::objects::Object;
use std::alloc::AllocError;
use uvm_lines::{act_text, call_text, who_text};
use uvm_object::{Acts, Entry, Grant, Origin, Outcome, Passage, StoredAct, StoredCall, Who};
use uvm_phase::Phase;
use uvm_tree::NodeId;

// Adds the kind of an entry, and what the entry says. Errors: out of memory.
pub(crate) fn add_entry(
    scene: &Scene<'_>,
    entry: &Entry,
    object: &mut Object,
) -> Result<(), AllocError> {
    object.text("kind", kind_of(entry).as_bytes())?;
    match entry {
        Entry::Begin(phase) | Entry::End(phase) => add_phase(Some(*phase), object),
        Entry::Time(_) | Entry::Over(_) => Ok(()),
        Entry::Heard {
            who,
            origin,
            call,
            acts,
        } => add_heard(scene, (who, origin.get()), (call, acts), object),
        Entry::Did { who, outcome, act } => add_did(scene, who, &outcome.get(), act, object),
        Entry::Locked { sequencer, id } => {
            let (home, id) = (*sequencer, *id);
            add_at(
                scene,
                &Who::Sequence { home, id },
                "sequencer",
                home,
                object,
            )
        }
        Entry::Granted { sequencer, grant } => add_granted(scene, *sequencer, *grant, object),
        Entry::Passed { fifo, passage } => add_passed(scene, *fifo, &passage.get(), object),
        Entry::Drained { node, origin } => {
            add_origin(Some(*origin), object)?;
            add_who(scene, "who", &Who::Node(*node), object)
        }
        Entry::Note { fatal, node } => {
            object.text("outcome", fatal.id().as_bytes())?;
            add_who(scene, "who", &Who::Node(*node), object)
        }
    }
}

// Returns the word for the kind of an entry, the first of its line in a transcript.
fn kind_of(entry: &Entry) -> &'static str {
    match entry {
        Entry::Begin(_) => "begin",
        Entry::End(_) => "end",
        Entry::Time(_) => "time",
        Entry::Heard { .. } => "heard",
        Entry::Did { .. } => "did",
        Entry::Locked { .. } => "locked",
        Entry::Granted { .. } => "granted",
        Entry::Passed { .. } => "passed",
        Entry::Drained { .. } => "drained",
        Entry::Note { .. } => "note",
        Entry::Over(_) => "over",
    }
}

// Adds a component, a node or a sequence. Errors: out of memory.
fn add_who(scene: &Scene<'_>, key: &str, who: &Who, object: &mut Object) -> Result<(), AllocError> {
    let text = who_text(scene.alloc, who, scene.tree, scene.sequences)?;
    object.text(key, text.as_slice())
}

// Adds a component or sequence, and the node at which it is. Errors: out of memory.
fn add_at(
    scene: &Scene<'_>,
    who: &Who,
    key: &str,
    node: NodeId,
    object: &mut Object,
) -> Result<(), AllocError> {
    add_who(scene, "who", who, object)?;
    add_who(scene, key, &Who::Node(node), object)
}

// Adds a phase, if there is one. Errors: out of memory.
fn add_phase(phase: Option<Phase>, object: &mut Object) -> Result<(), AllocError> {
    match phase {
        Some(phase) => object.text("phase", phase.name().as_bytes()),
        None => Ok(()),
    }
}

// Adds the place of the entry that was the cause, and the phase. Errors: out of memory.
fn add_origin(origin: Option<Origin>, object: &mut Object) -> Result<(), AllocError> {
    let Some(origin) = origin else {
        return Ok(());
    };
    object.number("cause", u64::from(origin.cause.place))?;
    add_phase(Some(origin.phase), object)
}

// Adds a call and its answer. Errors: out of memory.
fn add_heard(
    scene: &Scene<'_>,
    (who, origin): (&Who, Option<Origin>),
    (call, acts): (&StoredCall, &Acts),
    object: &mut Object,
) -> Result<(), AllocError> {
    add_who(scene, "who", who, object)?;
    add_origin(origin, object)?;
    add_phase(scene.phase, object)?;
    let text = call_text(scene.alloc, &call.get())?;
    object.text("call", text.as_slice())?;
    let mut answer = Vec::new(scene.alloc);
    for act in acts.iter() {
        answer.push(act_text(scene.alloc, act.get())?)?;
    }
    object.texts("answer", answer.as_slice())
}

// Adds an action and its outcome. Its cause is the call that it answers. Errors: out of memory.
fn add_did(
    scene: &Scene<'_>,
    who: &Who,
    outcome: &Outcome,
    act: &StoredAct,
    object: &mut Object,
) -> Result<(), AllocError> {
    add_who(scene, "who", who, object)?;
    if let Some(heard) = scene.heard {
        object.number("cause", heard as u64)?;
        add_phase(scene.phase, object)?;
    }
    let text = act_text(scene.alloc, act.act().get())?;
    object.text("act", text.as_slice())?;
    object.text("outcome", outcome_word(outcome).as_bytes())
}

// Returns the word for an outcome; for a rejected action the id of the report.
fn outcome_word(outcome: &Outcome) -> &'static str {
    match outcome {
        Outcome::Done => "done",
        Outcome::Made(_) => "made",
        Outcome::Started(_) => "started",
        Outcome::Value(_) => "value",
        Outcome::Stored(_) => "stored",
        Outcome::Taken(_) => "taken",
        Outcome::Waits(_) => "waits",
        Outcome::Finished => "finished",
        Outcome::Refused(fatal) => fatal.id(),
    }
}

// Adds a granted sequence, and the random number that decided, if one did. Errors: out of memory.
fn add_granted(
    scene: &Scene<'_>,
    home: NodeId,
    grant: Grant,
    object: &mut Object,
) -> Result<(), AllocError> {
    if let Some(word) = grant.word {
        object.number("word", word)?;
    }
    let id = grant.id;
    add_at(
        scene,
        &Who::Sequence { home, id },
        "sequencer",
        home,
        object,
    )
}

// Adds a transfer. Its cause is the request. Errors: out of memory.
fn add_passed(
    scene: &Scene<'_>,
    fifo: NodeId,
    passage: &Passage,
    object: &mut Object,
) -> Result<(), AllocError> {
    object.text("port", passage.port.as_bytes())?;
    object.number("cause", passage.request)?;
    add_phase(Some(passage.phase), object)?;
    add_at(scene, &passage.who, "fifo", fifo, object)
}
