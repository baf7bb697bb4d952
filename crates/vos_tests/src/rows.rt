// The rows, over any store.
ghost use Rattle.std.specs.Prelude.{◌≡◌, false, OnOk, Some};
ghost use Rattle.vos_tests.specs.Rows.{IsUnused, put_two};

use crate::steps::{CONT, StepNo, akey, attempt, put, stage, start, two_records};
use base_types::answer::Answer;
use base_types::entry::Settle;
use base_types::epoch::Epoch;
use base_types::operation::Read;
use base_types::shown::Shown;
use std::alloc::Global;
use vos_store::listed::{ContIds, ObjIds};
use vos_store::refusal::{DiscardNo, FetchNo};
use vos_store::store::Store;

/// What a store with two records in an array shows: what is read around them, the objects, and the
/// containers.
#[derive(Drop)]
pub(crate) struct Seen {
    pub parts: Result<Answer, FetchNo>,
    pub objects: ObjIds,
    pub conts: ContIds,
}

/// Two records in an array, and what is seen of them.
pub(crate) fn read_around<S: Store>(alloc: Global, store: &mut S) -> Result<Seen, StepNo>
    requires { IsUnused (S.state store.old) (S.durable store.old) }
{
    let write = two_records(alloc)?;
    start(store)?;
    stage(store, 0, write)?;
    store.settle(attempt(0), Settle::Commit)?;
    let parts = store.fetch(&Read::Extent(akey(alloc)?, 0, 4), Epoch(512));
    let objects = store.objects(CONT)?;
    let conts = store.conts()?;
    Ok(Seen {
        parts,
        objects,
        conts,
    })
}

/// A discard over a version that isn't settled.
pub(crate) fn discard_over<S: Store>(
    alloc: Global,
    store: &mut S,
) -> Result<Result<(), DiscardNo>, StepNo>
    requires { IsUnused (S.state store.old) (S.durable store.old) }
{
    let write = two_records(alloc)?;
    start(store)?;
    stage(store, 7, write)?;
    Ok(store.discard(CONT, Epoch(0), Epoch(1000)))
}

/// What a store with two values at an akey shows: the later one, and what is read below 513 and below 601
/// once the container was pruned up to 600.
#[derive(Drop)]
pub(crate) struct Pruned {
    pub later: Option<Shown>,
    pub below: Result<Answer, FetchNo>,
    pub above: Result<Answer, FetchNo>,
}

// Two values at the akey, at 256 and 512.
fn put_two<S: Store>(alloc: Global, store: &mut S) -> Result<(), StepNo>
    requires { IsUnused (S.state store.old) (S.durable store.old) }
    ensures kept { OnOk result (S.durable store.new ≡ Some put_two) }
    ensures runs { OnOk result ((S.state store.new).stopped ≡ false) }
{
    start(store)?;
    put(alloc, store, 0, 256, b"one")?;
    put(alloc, store, 1, 512, b"two")
}

/// Two values at an akey, whose container is pruned, and what is seen of them.
pub(crate) fn prune_over<S: Store>(alloc: Global, store: &mut S) -> Result<Pruned, StepNo>
    requires { IsUnused (S.state store.old) (S.durable store.old) }
{
    put_two(alloc, store)?;
    let path = akey(alloc)?;
    let later = store.later_write(&path, Epoch(256), Epoch(512))?;
    store.prune(CONT, Epoch(600), 0)?;
    let read = Read::Single(path);
    let below = store.fetch(&read, Epoch(513));
    let above = store.fetch(&read, Epoch(601));
    Ok(Pruned {
        later,
        below,
        above,
    })
}
