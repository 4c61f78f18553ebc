//! Tests of the calls of sequences and a sequencer if memory is available. The lemmas on sequences and on grants, in proofs/, state
//! the result in each case.

use std::alloc::Global;
use std::test::Fail;
use uvm_glob::Name;
use uvm_sequencer::{Asked, How, Mode, SeqFault, Sequencer};
use uvm_sequences::{SeqId, SeqStep, Sequences};
use uvm_tree::NodeId;

// The names of a sequence and its child.
#[derive(Clone, Copy)]
struct Names {
    root: Name,
    child: Name,
}

fn two_names() -> Result<Names, Fail> {
    Ok(Names {
        root: Name::new(b"a")?,
        child: Name::new(b"b")?,
    })
}

// A sequence and its child.
#[derive(Clone, Copy)]
struct Two {
    root: SeqId,
    child: SeqId,
}

fn two_started(sequences: &mut Sequences, names: Names) -> Result<Two, Fail> {
    sequences.reserve()?;
    let root = sequences.start(NodeId::TOP, None, names.root, 100)?;
    let child = sequences.start(NodeId::TOP, Some(root), names.child, 200)?;
    Ok(Two { root, child })
}

#[test]
fn a_child_stands_under_its_parent(rt: HostRuntime) -> Result<(), Fail> {
    let names = two_names()?;
    let mut sequences = Sequences::new(rt.alloc());
    assert!(rt; stands_under_its_parent(rt.alloc(), &mut sequences, names)?);
    Ok(())
}

fn stands_under_its_parent(
    alloc: Global,
    sequences: &mut Sequences,
    names: Names,
) -> Result<bool, Fail> {
    let two = two_started(sequences, names)?;
    Ok(is_told(sequences, two, names) && is_shown(&sequences.names(alloc, two.child)?, names))
}

fn is_told(sequences: &Sequences, two: Two, names: Names) -> bool {
    (two.root.number(), two.child.number()) == (1, 2)
        && sequences.is_under(two.child, two.root)
        && sequences.parent(two.child) == Some(two.root)
        && sequences.home(two.child) == Some(NodeId::TOP)
        && sequences.priority(two.child) == Some(200)
        && sequences.name(two.child) == Some(&names.child)
}

fn is_shown(shown: &Vec<Name>, names: Names) -> bool {
    shown.as_slice() == [names.root, names.child].as_slice()
}

#[test]
fn a_sequence_lives_until_it_is_finished(rt: HostRuntime) -> Result<(), Fail> {
    let names = two_names()?;
    let mut sequences = Sequences::new(rt.alloc());
    assert!(rt; lives_until_it_is_finished(&mut sequences, names)?);
    Ok(())
}

fn lives_until_it_is_finished(sequences: &mut Sequences, names: Names) -> Result<bool, Fail> {
    let two = two_started(sequences, names)?;
    let lived = sequences.is_live(two.root) && sequences.step(two.root) == Some(SeqStep::Body);
    sequences.finish(two.root);
    Ok(
        lived
            && !sequences.is_live(two.root)
            && sequences.step_of(two.child) == Some(SeqStep::PreStart),
    )
}

// The port that drives the sequencer.
const PORT: NodeId = NodeId::TOP;

#[test]
fn items_and_locks_are_granted(rt: HostRuntime) -> Result<(), Fail> {
    let names = two_names()?;
    let mut sequences = Sequences::new(rt.alloc());
    let mut sequencer = Sequencer::new(rt.alloc(), Mode::Weighted);
    assert!(rt; are_granted(&mut sequencer, &mut sequences, names)?);
    Ok(())
}

fn are_granted(
    sequencer: &mut Sequencer,
    sequences: &mut Sequences,
    names: Names,
) -> Result<bool, Fail> {
    let two = two_started(sequences, names)?;
    sequencer.set_driver(PORT);
    Ok(
        is_an_item_granted(sequencer, sequences, two)?
            && is_a_lock_granted(sequencer, sequences, two)?
            && is_asking_ended(sequencer, sequences, two)?,
    )
}

// Returns whether the random number 10 grants the second request, if the priorities are 10 and 20, and the driver completes its item.
fn is_an_item_granted(
    sequencer: &mut Sequencer,
    sequences: &Sequences,
    two: Two,
) -> Result<bool, SeqFault> {
    sequencer.request(two.root, 10)?;
    sequencer.request(two.child, 20)?;
    let asked = sequencer.ask(sequences, PORT, How::Next)?;
    let candidates = sequencer.candidates(sequences);
    let chosen = choose(sequencer, sequences, 10);
    let how = sequencer.send(two.child)?;
    let done = sequencer.done(PORT)?;
    Ok(
        asked == Asked::Waits
            && candidates == 2
            && chosen == Some(two.child)
            && how == How::Next
            && done == two.child,
    )
}

// Grants an item request and returns its sequence. Uses the random number `word` only if one decides. Returns `None` if `choose` can
// grant nothing.
fn choose(sequencer: &mut Sequencer, sequences: &Sequences, word: u64) -> Option<SeqId> {
    let word = match sequencer.ready(sequences)? {
        true => Some(word),
        false => None,
    };
    Some(sequencer.choose(sequences, word))
}

// Returns whether a lock request waits after an item request, and a grab goes before both and is granted.
fn is_a_lock_granted(
    sequencer: &mut Sequencer,
    sequences: &Sequences,
    two: Two,
) -> Result<bool, SeqFault> {
    sequencer.lock(two.child)?;
    let waits = sequencer.leading_lock(sequences) == None;
    sequencer.grab(two.root)?;
    let granted = sequencer.settle(sequences);
    sequencer.unlock(two.root)?;
    Ok(waits && granted == Some(two.root) && sequencer.waiting() == 2)
}

// Returns whether a sequence can leave while the driver waits, and the request of the driver then ends. It ends by `end_ask`, and by
// `end_phase` only if its flag is true.
fn is_asking_ended(
    sequencer: &mut Sequencer,
    sequences: &Sequences,
    two: Two,
) -> Result<bool, SeqFault> {
    sequencer.ask(sequences, PORT, How::Next)?;
    let lapsed = sequencer.leave(two.root);
    sequencer.end_ask();
    sequencer.ask(sequences, PORT, How::Next)?;
    let goes_on = !sequencer.end_phase(sequences, false)
        && sequencer.ask(sequences, PORT, How::Next) == Err(SeqFault::Twice);
    let ended = !sequencer.end_phase(sequences, true);
    sequencer.ask(sequences, PORT, How::Next)?;
    Ok(!lapsed && goes_on && ended && sequencer.waiting() == 1)
}
