// A row over the second of two targets: a Mark overtakes the Prepare of its attempt.
ghost use Rattle.std.specs.Prelude.{◌≡◌, ◌≤◌, IfOk, OnOk, false, true};
ghost use Rattle.std.specs.Option.{ForSome};
ghost use Rattle.target_tests.specs.Overtaken.{IsNew, akey, entry, fetch, mark, prepare, reader, second, verdict, writer};
ghost use Rattle.target_tests.specs.Rows.{IsHere, IsNeverUsed};

use crate::follows::Follows;
use crate::steps::{StepNo, start_at};
use base_messages::actor::ActorId;
use base_messages::message::Message;
use base_outside::clock::Clock;
use base_types::entry::{Entry, Verdict};
use base_types::epoch::Epoch;
use base_types::id::{AttemptId, Class, ContId, ObjId};
use base_types::items::{Items, bytes_of};
use base_types::key::{Key, KeyNo};
use base_types::operation::{MinorWrite, Read, Write};
use base_types::path::Path;
use std::alloc::Global;
use target_core::target::Target;
use vos_store::store::Store;

/// What follows on the second of two targets, turn by turn: of a Mark that tells of an attempt that it is
/// aborted, of the Prepare of that attempt, of a read where it writes, and of the Verdict on it; and the
/// client and the epoch that the read is issued.
#[derive(Clone, Copy)]
pub(crate) struct Overtaken {
    pub marked: Follows,
    pub prepared: Follows,
    pub parked: Follows,
    pub issued: Option<(u16, u64)>,
    pub resolved: Follows,
}

/// The attempt that writes, which the first target leads.
pub(crate) fn writer() -> AttemptId
    ensures { result ≡ writer }
{
    AttemptId {
        client: 0,
        command: 0,
        attempt: 0,
    }
}

/// The attempt that reads.
pub(crate) fn reader() -> AttemptId
    ensures { result ≡ reader }
{
    AttemptId {
        client: 1,
        command: 0,
        attempt: 0,
    }
}

// An akey under the dkey d of the object of class S1 and number 1, which the second of two targets has.
fn akey(alloc: Global) -> Result<Path, KeyNo>
    ensures { IfOk result (λ path. path ≡ akey) }
{
    let dkey = Key::new(alloc, b"d")?;
    let akey = Key::new(alloc, b"a")?;
    Ok(Path {
        cont: ContId(1),
        obj: Some(ObjId {
            class: Class::S1,
            number: 1,
            unit: 1,
        }),
        dkey: Some(dkey),
        akey: Some(akey),
    })
}

// The entry of the attempt that writes, of which both targets are members.
fn entry() -> Entry
    ensures { result ≡ entry }
{
    Entry {
        attempt: writer(),
        epoch: Epoch(256),
        leader: 0,
        members: 3,
        confirmed: 0,
        committed: false,
    }
}

fn mark(alloc: Global) -> Result<Message, StepNo>
    ensures { IfOk result (λ message. message ≡ mark) }
{
    let mut marks = Items::new(alloc);
    marks.push((writer(), false))?;
    Ok(Message::Mark { inc: 1, marks })
}

fn prepare(alloc: Global) -> Result<Message, StepNo>
    ensures { IfOk result (λ message. message ≡ prepare) }
{
    let path = akey(alloc)?;
    let value = bytes_of(alloc, b"1")?;
    let mut writes = Items::new(alloc);
    writes.push(MinorWrite {
        minor: 1,
        write: Write::Single(path, value),
    })?;
    Ok(Message::Prepare {
        entry: entry(),
        first: None,
        writes,
        inc: 1,
    })
}

fn fetch(alloc: Global) -> Result<Message, StepNo>
    ensures { IfOk result (λ message. message ≡ fetch) }
{
    let path = akey(alloc)?;
    Ok(Message::Fetch {
        attempt: reader(),
        op: 0,
        group: 0,
        ep: None,
        first: None,
        tracker: Epoch(0),
        read: Read::Single(path),
        snapshot: false,
    })
}

fn verdict() -> Message
    ensures { result ≡ verdict }
{
    Message::Verdict {
        attempt: writer(),
        ask: Some(reader()),
        inc: 1,
        verdict: Verdict::Aborted,
    }
}

/// The first target.
pub(crate) const LEADER: ActorId = ActorId {
    client: false,
    number: 0,
};

/// The client that reads.
pub(crate) const READER: ActorId = ActorId {
    client: true,
    number: 1,
};

// The second target hears the Mark before anything else: nothing is written after it.
fn hear_mark<S: Store, C: Clock>(
    alloc: Global,
    target: &mut Target<S, C>,
) -> Result<Follows, StepNo>
    requires plan { target.old.plan ≡ second }
    requires opened { target.old.opened ≡ true }
    requires runs { (S.state target.old.store).stopped ≡ false }
    requires new { ForSome (S.durable target.old.store) IsNew }
    ensures plan { OnOk result (target.new.plan ≡ second) }
    ensures opened { OnOk result (target.new.opened ≡ true) }
    ensures runs { OnOk result ((S.state target.new.store).stopped ≡ false) }
    ensures new { OnOk result (ForSome (S.durable target.new.store) IsNew) }
{
    let message = mark(alloc)?;
    Ok(Follows::of(&target.hear(LEADER, message, None)?))
}

// It hears the Prepare.
fn hear_prepare<S: Store, C: Clock>(
    alloc: Global,
    target: &mut Target<S, C>,
) -> Result<Follows, StepNo>
    requires plan { target.old.plan ≡ second }
    requires opened { target.old.opened ≡ true }
    requires runs { (S.state target.old.store).stopped ≡ false }
    requires new { ForSome (S.durable target.old.store) IsNew }
    ensures opened { OnOk result (target.new.opened ≡ true) }
    ensures runs { OnOk result ((S.state target.new.store).stopped ≡ false) }
    ensures here { OnOk result (ForSome (S.durable target.new.store) IsHere) }
{
    let message = prepare(alloc)?;
    Ok(Follows::of(&target.hear(LEADER, message, None)?))
}

// What follows on the read, and the epoch that it is issued, with its attempt.
type Parked = (Follows, Option<(AttemptId, Epoch)>);

// It hears the read.
fn hear_fetch<S: Store, C: Clock>(
    alloc: Global,
    target: &mut Target<S, C>,
) -> Result<Parked, StepNo>
    requires opened { target.old.opened ≡ true }
    requires runs { (S.state target.old.store).stopped ≡ false }
    requires here { ForSome (S.durable target.old.store) IsHere }
    ensures opened { OnOk result (target.new.opened ≡ true) }
    ensures runs { OnOk result ((S.state target.new.store).stopped ≡ false) }
{
    let message = fetch(alloc)?;
    let did = target.hear(READER, message, None)?;
    Ok((Follows::of(&did), did.issued))
}

// It hears the Verdict.
fn hear_verdict<S: Store, C: Clock>(target: &mut Target<S, C>) -> Result<Follows, StepNo>
    requires opened { target.old.opened ≡ true }
    requires runs { (S.state target.old.store).stopped ≡ false }
{
    Ok(Follows::of(&target.hear(LEADER, verdict(), None)?))
}

// Who was issued an epoch, and which.
fn numbers(issued: Option<(AttemptId, Epoch)>) -> Option<(u16, u64)> {
    match issued {
        Some((attempt, epoch)) => Some((attempt.client, epoch.0)),
        None => None,
    }
}

// All that follows.
fn all(marked: Follows, prepared: Follows, parked: Parked, resolved: Follows) -> Overtaken {
    Overtaken {
        marked,
        prepared,
        parked: parked.0,
        issued: numbers(parked.1),
        resolved,
    }
}

// All its turns.
fn turns<S: Store, C: Clock>(alloc: Global, target: &mut Target<S, C>) -> Result<Overtaken, StepNo>
    requires plan { target.old.plan ≡ second }
    requires opened { target.old.opened ≡ true }
    requires runs { (S.state target.old.store).stopped ≡ false }
    requires new { ForSome (S.durable target.old.store) IsNew }
{
    let marked = hear_mark(alloc, target)?;
    let prepared = hear_prepare(alloc, target)?;
    let parked = hear_fetch(alloc, target)?;
    let resolved = hear_verdict(target)?;
    Ok(all(marked, prepared, parked, resolved))
}

/// The first target marks an attempt as aborted, and its Prepare comes after that; client 1 reads where
/// it writes, and the first target answers that it is aborted.
pub(crate) fn mark_before_prepare<S: Store + Drop, C: Clock + Drop>(
    alloc: Global,
    store: S,
    clock: C,
) -> Result<Overtaken, StepNo>
    requires made { 2 ≤ (S.state store).targets }
    requires new { IsNeverUsed (S.state store) (S.durable store) }
{
    let mut target = start_at(alloc, 1, 2, store, clock)?;
    turns(alloc, &mut target)
}
