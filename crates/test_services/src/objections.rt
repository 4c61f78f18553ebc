//! Tests of raises, drops and drains of objections, with their counts.

ghost use Rattle.std.specs.Prelude.{IsTrue};
ghost use Rattle.uvm_objection.specs.Nodes.{is_known};

use std::alloc::Global;
use std::process::Abort;
use std::test::Fail;
use uvm_glob::Name;
use uvm_objection::{BelowZero, Due, Objection, laws};
use uvm_tree::{NodeId, NodeKind, Tree};

// The objections of the root, of a test under it, and of an env under the test.
#[derive(Drop)]
struct Bench {
    objection: Objection,
    test: NodeId,
    env: NodeId,
    ghost top_known: { IsTrue (is_known 0 objection.nodes) },
    ghost test_known: { IsTrue (is_known test objection.nodes) },
    ghost env_known: { IsTrue (is_known env objection.nodes) },
}

// A node of `Bench`.
#[derive(Clone, Copy)]
enum At {
    Top,
    Test,
    Env,
}

use At::{Env, Test, Top};

// Returns two nodes of a new tree, the second under the first.
fn two_nodes(alloc: Global) -> Result<(NodeId, NodeId), Fail> {
    let mut tree = Tree::new(alloc);
    add_two(&mut tree)
}

fn add_two(tree: &mut Tree) -> Result<(NodeId, NodeId), Fail> {
    let test = tree.add(NodeId::TOP, Name::new(b"test")?, NodeKind::Component)?;
    let env = tree.add(test, Name::new(b"env")?, NodeKind::Component)?;
    Ok((test, env))
}

impl Bench {
    fn new(alloc: Global, rt: &impl Abort) -> Result<Bench, Fail> {
        let (test, env) = two_nodes(alloc)?;
        assert!(rt; test != NodeId::TOP && env != NodeId::TOP && env != test);
        let mut objection = Objection::new(alloc);
        objection.reserve()?;
        objection.add(test, NodeId::TOP)?;
        objection.add(env, test)?;
        Ok(Bench {
            objection,
            test,
            env,
        })
    }

    fn node(&self, at: At) -> NodeId
        ensures { IsTrue (is_known result self.now.objection.nodes) }
    {
        match at {
            Top => NodeId::TOP,
            Test => self.test,
            Env => self.env,
        }
    }

    fn set_drain(&mut self, at: At, drain: u16) {
        laws::places_stay();
        let node = self.node(at);
        self.objection.set_drain(node, u64::from(drain));
    }

    fn raise(&mut self, rt: &impl Abort, at: At, count: u16) -> Option<NodeId> {
        laws::places_stay();
        let node = self.node(at);
        assert!(rt; self.objection.total(NodeId::TOP) < 1000);
        self.objection.raise(node, count)
    }

    fn drop(&mut self, at: At, count: u16, now: u16) -> Result<Option<Due>, BelowZero> {
        laws::places_stay();
        let node = self.node(at);
        self.objection.drop(node, count, u64::from(now))
    }

    // Drops a count, and ends the drain that this begins. Returns this drain, and the drain that then begins above it.
    fn drop_and_drain(
        &mut self,
        rt: &impl Abort,
        at: At,
        count: u16,
        now: u16,
    ) -> [Option<Due>; 2] {
        laws::places_stay();
        laws::begun_drains_are_held();
        let node = self.node(at);
        let Ok(Some(due)) = self.objection.drop(node, count, u64::from(now)) else {
            return [None, None];
        };
        let total = self.objection.total(node);
        assert!(rt; due.at < 1000);
        assert!(rt; due.node == node);
        assert!(rt; self.objection.held(node) > 0 && total == 0);
        [Some(due), self.objection.drained(node)]
    }

    fn total(&self, at: At) -> u64 {
        self.objection.total(self.node(at))
    }

    fn source(&self, at: At) -> u64 {
        self.objection.source(self.node(at))
    }

    fn held(&self, at: At) -> u64 {
        self.objection.held(self.node(at))
    }
}

#[test]
fn a_raise_ends_a_drain_and_the_net_change_goes_up(rt: HostRuntime) -> Result<(), Fail> {
    let mut bench = Bench::new(rt.alloc(), &rt)?;
    drop_and_raise(&rt, &mut bench);
    Ok(())
}

fn drop_and_raise(rt: &impl Abort, bench: &mut Bench) {
    let env = bench.env;
    bench.set_drain(Env, 4);
    assert!(rt; bench.raise(rt, Env, 3) == None);
    assert!(rt; bench.drop(Env, 3, 7) == Ok(Some(Due { node: env, at: 11 })));
    assert!(rt; (bench.held(Env), bench.total(Env), bench.total(Top)) == (3, 0, 3));
    assert!(rt; bench.raise(rt, Env, 1) == Some(env));
    assert!(rt; (bench.held(Env), bench.total(Env)) == (0, 1));
    assert!(rt; (bench.total(Test), bench.total(Top)) == (1, 1));
    assert!(rt; bench.drop(Env, 2, 8) == Err(BelowZero));
    assert!(rt; bench.source(Env) == 1);
}

// The drain of the env is due at 11 ticks. The drain time of the test counts from there.
#[test]
fn what_was_held_goes_up_and_is_held_above(rt: HostRuntime) -> Result<(), Fail> {
    let mut bench = Bench::new(rt.alloc(), &rt)?;
    drain_below(&rt, &mut bench);
    Ok(())
}

fn drain_below(rt: &impl Abort, bench: &mut Bench) {
    let (test, env) = (bench.test, bench.env);
    bench.set_drain(Env, 4);
    bench.set_drain(Test, 5);
    assert!(rt; bench.raise(rt, Env, 3) == None);
    let [below, above] = bench.drop_and_drain(rt, Env, 3, 7);
    assert!(rt; below == Some(Due { node: env, at: 11 }));
    assert!(rt; above == Some(Due { node: test, at: 16 }));
    assert!(rt; (bench.held(Env), bench.held(Test), bench.total(Test)) == (0, 3, 0));
    assert!(rt; bench.total(Top) == 3);
}

#[test]
fn the_fault_tells_that_too_much_was_dropped(rt: HostRuntime) -> Result<(), Fail> {
    assert!(rt; BelowZero.to_string(rt.alloc())?.as_str() == "objection dropped below zero");
    Ok(())
}
