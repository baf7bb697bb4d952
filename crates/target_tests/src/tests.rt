// What follows from the turns.
use crate::follows::Said;
use crate::overtaken::{LEADER, Overtaken, READER, mark_before_prepare};
use crate::own::{MEMBER, Told, told_of_own};
use base_outside::count_clock::CountClock;
use std::alloc::Global;
use std::test::Fail;
use vos_plain::store::PlainStore;

fn overtaken(alloc: Global) -> Option<Overtaken> {
    let store = PlainStore::new(alloc, 4, &[]).ok()?;
    mark_before_prepare(alloc, store, CountClock::new()).ok()
}

fn told(alloc: Global, committed: bool) -> Option<Told> {
    let store = PlainStore::new(alloc, 4, &[]).ok()?;
    told_of_own(alloc, store, CountClock::new(), committed).ok()
}

// A message of the attempt of client 0 with the incarnation 1.
fn said(kind: &'static str) -> Said {
    (kind, 0, [1, 0, 0, 0])
}

#[test]
fn a_mark_overtakes_its_prepare(rt: HostRuntime) -> Result<(), Fail> {
    let row = overtaken(rt.alloc()).ok_or("the target stopped")?;
    assert!(rt; row.marked.is(LEADER, said("marked")));
    assert!(rt; row.prepared.is(LEADER, said("ack")));
    // A read after it asks the leader what became of the attempt, and waits for that.
    assert!(rt; row.issued == Some((1, 513)));
    assert!(rt; row.parked.is(LEADER, ("query", 0, [1, 0, 0, 0])));
    assert!(rt; row.resolved.is(READER, ("absent", 1, [513, 0, 0, 0])));
    Ok(())
}

#[test]
fn a_leader_settles_what_a_mark_tells_it_of_its_own(rt: HostRuntime) -> Result<(), Fail> {
    let row = told(rt.alloc(), true).ok_or("the target stopped")?;
    assert!(rt; row.begun.is(MEMBER, ("prepare", 0, [256, 0, 3, 1])));
    assert!(rt; row.unknown.is_nothing());
    assert!(rt; row.told.is(MEMBER, said("marked")));
    assert!(rt; row.answered.is_nothing());
    assert!(rt; row.asked.is(MEMBER, ("verdict", 0, [1, 0, 0, 0])));
    assert!(rt; row.idle.is(MEMBER, ("mark", 0, [1, 1, 0, 0])));
    Ok(())
}

#[test]
fn a_leader_settles_what_a_verdict_tells_it_of_its_own(rt: HostRuntime) -> Result<(), Fail> {
    let row = told(rt.alloc(), false).ok_or("the target stopped")?;
    assert!(rt; row.told.is_nothing());
    assert!(rt; row.answered.is_nothing());
    assert!(rt; row.asked.is(MEMBER, ("verdict", 0, [0, 0, 0, 0])));
    assert!(rt; row.idle.is_nothing());
    Ok(())
}
