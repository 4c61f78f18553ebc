//! Tests of the written lines of entries: one for each kind of entry, with each kind of content that a line may have. The lemmas on
//! lines, in proofs/, state the line of each action and call.

use super::{ITEM, ORIGIN};
use std::alloc::{AllocError, Global};
use std::test::Fail;
use uvm_glob::{Glob, Name, Path};
use uvm_lines::line_of;
use uvm_object::{
    Act, Acts, Call, Entry, Fatal, Grant, LoggedOutcome, LoggedPassage, Passage, Reason, StoredAct,
    What, Who, shown_path, source_of,
};
use uvm_phase::Phase;
use uvm_sequences::{SeqId, Sequences};
use uvm_tlm::MoveKind;
use uvm_tree::{NodeId, NodeKind, Tree};

// A tree with `uvm_test_top` and `a` below it. At `a`, a sequence `a` and its child `b` are started.
#[derive(Drop)]
struct Place {
    tree: Tree,
    sequences: Sequences,
    test: NodeId,
    home: NodeId,
    child: SeqId,
}

fn small_tree(tree: &mut Tree) -> Result<(NodeId, NodeId), Fail> {
    let test = tree.add(
        NodeId::TOP,
        Name::new(b"uvm_test_top")?,
        NodeKind::Component,
    )?;
    let home = tree.add(test, Name::new(b"a")?, NodeKind::Component)?;
    Ok((test, home))
}

fn two_sequences(alloc: Global, home: NodeId) -> Result<(Sequences, SeqId), Fail> {
    let (a, b) = (Name::new(b"a")?, Name::new(b"b")?);
    let mut sequences = Sequences::new(alloc);
    let parent = sequences.start(home, None, a, 100)?;
    let child = sequences.start(home, Some(parent), b, 100)?;
    Ok((sequences, child))
}

fn make_place(alloc: Global) -> Result<Place, Fail> {
    let mut tree = Tree::new(alloc);
    let (test, home) = small_tree(&mut tree)?;
    let (sequences, child) = two_sequences(alloc, home)?;
    Ok(Place {
        tree,
        sequences,
        test,
        home,
        child,
    })
}

// The written lines.
#[derive(Drop)]
struct Page {
    alloc: Global,
    lines: Vec<u8>,
}

impl Page {
    fn write(&mut self, place: &Place, entry: Entry) -> Result<(), AllocError> {
        line_of(&entry, &place.tree, &place.sequences, &mut self.lines)
    }

    // Writes the line of an action of the component `a`, from a copy of the action.
    fn write_act(
        &mut self,
        place: &Place,
        outcome: LoggedOutcome,
        act: &Act,
    ) -> Result<(), AllocError> {
        let act = StoredAct::new(self.alloc, act.copy()?)?;
        let who = Who::Node(place.home);
        self.write(place, Entry::Did { who, outcome, act })
    }
}

const WRITTEN: &[u8] = b"begin build
end end_of_elaboration
time 12
heard uvm_test_top.a@@a.b#2 config f 7: 0
did uvm_test_top.a override f f at (*.b): refused INVTYP
did uvm_test_top.a set () f -9: value none
did uvm_test_top.a connect (agent.drv.req) (): done
did uvm_test_top.a add f fifo 1: done
did uvm_test_top.a put f [1,-2,10,0]: yes
locked uvm_test_top.a uvm_test_top.a@@a.b#2
granted uvm_test_top.a uvm_test_top.a@@a.b#2 word 30
passed uvm_test_top.a take uvm_test_top
drained uvm_test_top
note ACTLIM uvm_test_top
over no_test
";

#[test]
fn each_sort_of_entry_has_its_line(rt: HostRuntime) -> Result<(), Fail> {
    let (name, place) = (Name::new(b"f")?, make_place(rt.alloc())?);
    assert!(rt; are_written(rt.alloc(), &place, name)?);
    Ok(())
}

fn are_written(alloc: Global, place: &Place, name: Name) -> Result<bool, Fail> {
    let mut page = Page {
        alloc,
        lines: Vec::new(alloc),
    };
    write_all(&mut page, place, name)?;
    Ok(page.lines.as_slice() == WRITTEN)
}

fn write_all(page: &mut Page, place: &Place, name: Name) -> Result<(), Fail> {
    page.write(place, Entry::Begin(Phase::Build))?;
    page.write(place, Entry::End(Phase::EndOfElaboration))?;
    page.write(place, Entry::Time(12))?;
    write_call(page, place, name)?;
    write_override(page, place, name)?;
    write_setting(page, place, name)?;
    write_connection(page, place)?;
    write_addition(page, place, name)?;
    write_put(page, place, name)?;
    write_lock(page, place)?;
    write_grant(page, place)?;
    write_passage(page, place, name)?;
    write_ends(page, place)?;
    Ok(())
}

fn write_call(page: &mut Page, place: &Place, field: Name) -> Result<(), AllocError> {
    let value = Some(7);
    let who = Who::Sequence {
        id: place.child,
        home: place.home,
    };
    let call = Call::Config { field, value };
    let heard = Entry::heard(page.alloc, who, &call, None, Acts::new(page.alloc))?;
    page.write(place, heard)
}

fn write_override(page: &mut Page, place: &Place, name: Name) -> Result<(), Fail> {
    let act = Act::OverrideInst {
        original: name,
        new: name,
        glob: Glob::new(page.alloc, b"*.b")?,
    };
    Ok(page.write_act(place, LoggedOutcome::refused(Fatal::InvalidType), &act)?)
}

fn write_setting(page: &mut Page, place: &Place, field: Name) -> Result<(), Fail> {
    let act = Act::Set {
        glob: Glob::new(page.alloc, b"")?,
        field,
        value: -9,
    };
    Ok(page.write_act(place, LoggedOutcome::value(None), &act)?)
}

fn write_connection(page: &mut Page, place: &Place) -> Result<(), Fail> {
    let act = Act::Connect {
        from: Path::parse(page.alloc, b"agent.drv.req")?,
        to: Path::top(page.alloc),
    };
    Ok(page.write_act(place, LoggedOutcome::done(), &act)?)
}

fn write_addition(page: &mut Page, place: &Place, name: Name) -> Result<(), AllocError> {
    let what = What::Fifo { size: 1 };
    page.write_act(place, LoggedOutcome::done(), &Act::Add { name, what })
}

fn write_put(page: &mut Page, place: &Place, port: Name) -> Result<(), AllocError> {
    let act = Act::Put { port, item: ITEM };
    page.write_act(place, LoggedOutcome::stored(true), &act)
}

fn write_lock(page: &mut Page, place: &Place) -> Result<(), AllocError> {
    let locked = Entry::Locked {
        sequencer: place.home,
        id: place.child,
    };
    page.write(place, locked)
}

fn write_grant(page: &mut Page, place: &Place) -> Result<(), AllocError> {
    let grant = Grant {
        id: place.child,
        word: Some(30),
    };
    let sequencer = place.home;
    page.write(place, Entry::Granted { sequencer, grant })
}

fn write_passage(page: &mut Page, place: &Place, port: Name) -> Result<(), AllocError> {
    let what = Passage {
        kind: MoveKind::Take,
        who: Who::Node(place.test),
        port,
        item: ITEM,
        request: 7,
        phase: Phase::Run,
    };
    let passage = LoggedPassage::new(page.alloc, what)?;
    let fifo = place.home;
    page.write(place, Entry::Passed { fifo, passage })
}

fn write_ends(page: &mut Page, place: &Place) -> Result<(), AllocError> {
    let node = place.test;
    let fatal = Fatal::TooManyActs;
    let origin = ORIGIN;
    page.write(place, Entry::Drained { node, origin })?;
    page.write(place, Entry::Note { fatal, node })?;
    page.write(place, Entry::Over(Reason::NoTest))
}

#[test]
fn nodes_and_sources_are_shown_by_their_names(rt: HostRuntime) -> Result<(), Fail> {
    let place = make_place(rt.alloc())?;
    assert!(rt; are_shown(rt.alloc(), &place)?);
    Ok(())
}

fn are_shown(alloc: Global, place: &Place) -> Result<bool, AllocError> {
    Ok(
        shown_path(NodeId::TOP, &place.tree) == b"uvm_top".as_slice()
            && shown_path(place.home, &place.tree) == b"uvm_test_top.a".as_slice()
            && is_source_shown(alloc, place)?,
    )
}

fn is_source_shown(alloc: Global, place: &Place) -> Result<bool, AllocError> {
    let who = Who::Sequence {
        id: place.child,
        home: place.home,
    };
    let source = source_of(alloc, &who, &place.tree, &place.sequences)?;
    Ok(source.as_slice() == b"uvm_test_top.a@@a.b".as_slice())
}
