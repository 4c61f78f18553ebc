//! The objects of a log.

use crate::entries::add_entry;
use crate::objects::Object;
use bench_core::Core;
use script_facts::State;
use std::alloc::{AllocError, Global};
use std::io;
use uvm_lines::line_of;
use uvm_object::{Call, Entry};
use uvm_phase::Phase;
use uvm_sequences::Sequences;
use uvm_tree::Tree;

/// What the entries of a log refer to, and where the log is.
#[derive(Drop)]
pub(crate) struct Scene<'a> {
    pub alloc: Global,
    pub tree: &'a Tree,
    pub sequences: &'a Sequences,
    // The time.
    time: u64,
    // The place of the last call, and its phase.
    pub heard: Option<usize>,
    pub phase: Option<Phase>,
}

impl Scene<'_> {
    // Goes to an entry.
    fn go(&mut self, place: usize, entry: &Entry) {
        match entry {
            Entry::Time(time) => self.time = *time,
            Entry::Heard { origin, call, .. } => {
                self.heard = Some(place);
                self.phase = match (call.get(), origin.get()) {
                    (Call::Phase(phase), _) => Some(phase),
                    (_, Some(origin)) => Some(origin.phase),
                    _ => None,
                };
            }
            _ => {}
        }
    }

    // Returns the line of an entry. Errors: out of memory.
    fn line(&self, place: usize, entry: &Entry) -> Result<String, AllocError> {
        let mut object = Object::new(self.alloc);
        object.number("place", place as u64)?;
        object.number("time", self.time)?;
        let mut text = Vec::new(self.alloc);
        line_of(entry, self.tree, self.sequences, &mut text)?;
        object.text("text", without_newline(text.as_slice()))?;
        add_entry(self, entry, &mut object)?;
        object.line()
    }
}

// Returns a line without its newline.
fn without_newline(line: &[u8]) -> &[u8] {
    match line.split_last() {
        Some((b'\n', rest)) => rest,
        _ => line,
    }
}

/// Writes the log of a run: for each entry an object on a line of its own. It has the entry's place, time, kind and line in the transcript, and by
/// its kind the phase, the component or sequence, the call with its answer, the action with its outcome, and the place of the entry that caused
/// it. Of a run that ran out of memory nothing is written. Errors: the writer's; out of memory.
pub fn write_log<W: io::Write>(alloc: Global, core: &Core, out: &mut W) -> io::Result<()> {
    let Some(state) = State::of_core(core) else {
        return Ok(());
    };
    let mut scene = Scene {
        alloc,
        tree: state.tree(),
        sequences: state.sequences(),
        time: 0,
        heard: None,
        phase: None,
    };
    for (place, entry) in core.log().iter().enumerate() {
        scene.go(place, entry);
        let line = scene.line(place, entry)?;
        out.write_all(line.as_bytes())?;
    }
    Ok(())
}
