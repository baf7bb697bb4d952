// A row over the first of two targets: it is told what became of an attempt that it leads itself.
ghost use Rattle.std.specs.Prelude.{◌≡◌, ◌≤◌, IfOk, OnOk, false, true};
ghost use Rattle.std.specs.Option.{ForSome};
ghost use Rattle.target_tests.specs.Overtaken.{IsNew};
ghost use Rattle.target_tests.specs.Own.{IsOfBegun, first, led, request, shared};
ghost use Rattle.target_tests.specs.Rows.{IsNeverUsed};

use crate::follows::Follows;
use crate::steps::{StepNo, start_at};
use base_messages::actor::ActorId;
use base_messages::message::Message;
use base_outside::clock::Clock;
use base_types::entry::Verdict;
use base_types::epoch::Epoch;
use base_types::id::{AttemptId, Class, ContId, ObjId};
use base_types::items::{Items, bytes_of};
use base_types::key::{Key, KeyNo};
use base_types::operation::{MinorWrite, Write};
use base_types::path::Path;
use std::alloc::Global;
use target_core::target::Target;
use vos_store::store::Store;

/// What follows on the first of two targets, turn by turn: of a Commit, which it leads; of an Ack from no
/// target; of a message that tells what became of this attempt; of the Ack of the other member; of a
/// question what became of it; and of idle work.
#[derive(Clone, Copy)]
pub(crate) struct Told {
    pub begun: Follows,
    pub unknown: Follows,
    pub told: Follows,
    pub answered: Follows,
    pub asked: Follows,
    pub idle: Follows,
}

/// The attempt that it leads.
pub(crate) fn led() -> AttemptId
    ensures { result ≡ led }
{
    AttemptId {
        client: 0,
        command: 0,
        attempt: 0,
    }
}

// An akey under the dkey d of the object of class RP_2G1 and number 0, which both targets hold.
fn shared(alloc: Global) -> Result<Path, KeyNo>
    ensures { IfOk result (λ path. path ≡ shared) }
{
    let dkey = Key::new(alloc, b"d")?;
    let akey = Key::new(alloc, b"a")?;
    Ok(Path {
        cont: ContId(1),
        obj: Some(ObjId {
            class: Class::RP2G1,
            number: 0,
            unit: 1,
        }),
        dkey: Some(dkey),
        akey: Some(akey),
    })
}

fn request(alloc: Global) -> Result<Message, StepNo>
    ensures { IfOk result (λ message. message ≡ request) }
{
    let path = shared(alloc)?;
    let value = bytes_of(alloc, b"1")?;
    let mut writes = Items::new(alloc);
    writes.push(MinorWrite {
        minor: 0,
        write: Write::Single(path, value),
    })?;
    Ok(Message::Commit {
        attempt: led(),
        ep: None,
        first: None,
        tracker: Epoch(0),
        writes,
    })
}

fn mark(alloc: Global) -> Result<Message, StepNo>
    ensures { IfOk result IsOfBegun }
{
    let mut marks = Items::new(alloc);
    marks.push((led(), true))?;
    Ok(Message::Mark { inc: 1, marks })
}

fn verdict() -> Message
    ensures { IsOfBegun result }
{
    Message::Verdict {
        attempt: led(),
        ask: None,
        inc: 1,
        verdict: Verdict::Aborted,
    }
}

// A Mark tells that the attempt is committed, or a Verdict that it is aborted.
fn ending(alloc: Global, committed: bool) -> Result<Message, StepNo>
    ensures { IfOk result IsOfBegun }
{
    if committed {
        mark(alloc)
    } else {
        Ok(verdict())
    }
}

fn query() -> Message
    ensures { IsOfBegun result }
{
    Message::Query {
        attempt: led(),
        ask: None,
    }
}

fn ack() -> Message
    ensures { IsOfBegun result }
{
    Message::Ack {
        attempt: led(),
        inc: 1,
        refusal: None,
    }
}

/// The client of the attempt.
pub(crate) const CLIENT: ActorId = ActorId {
    client: true,
    number: 0,
};

/// The other member.
pub(crate) const MEMBER: ActorId = ActorId {
    client: false,
    number: 1,
};

/// An actor whose number no target bears; modulo 256 it is that of the other member.
pub(crate) const STRANGER: ActorId = ActorId {
    client: false,
    number: 257,
};

// The first target hears the Commit before anything else.
fn hear_request<S: Store, C: Clock>(
    alloc: Global,
    target: &mut Target<S, C>,
) -> Result<Follows, StepNo>
    requires plan { target.old.plan ≡ first }
    requires opened { target.old.opened ≡ true }
    requires runs { (S.state target.old.store).stopped ≡ false }
    requires new { ForSome (S.durable target.old.store) IsNew }
    ensures opened { OnOk result (target.new.opened ≡ true) }
    ensures runs { OnOk result ((S.state target.new.store).stopped ≡ false) }
{
    let message = request(alloc)?;
    Ok(Follows::of(&target.hear(CLIENT, message, None)?))
}

// It hears what is told or asked of attempts that were begun, whatever it keeps.
fn hear_told<S: Store, C: Clock>(
    target: &mut Target<S, C>,
    from: ActorId,
    message: Message,
) -> Result<Follows, StepNo>
    requires opened { target.old.opened ≡ true }
    requires runs { (S.state target.old.store).stopped ≡ false }
    requires told { IsOfBegun message }
    ensures opened { OnOk result (target.new.opened ≡ true) }
    ensures runs { OnOk result ((S.state target.new.store).stopped ≡ false) }
{
    Ok(Follows::of(&target.hear(from, message, None)?))
}

// It does its idle work, before the settling phase.
fn idle<S: Store, C: Clock>(target: &mut Target<S, C>) -> Result<Follows, StepNo>
    requires opened { target.old.opened ≡ true }
    requires runs { (S.state target.old.store).stopped ≡ false }
{
    Ok(Follows::of(&target.idle(false)?))
}

// It begins the attempt, and is answered Ok by an actor that is no target.
fn begin<S: Store, C: Clock>(
    alloc: Global,
    target: &mut Target<S, C>,
) -> Result<(Follows, Follows), StepNo>
    requires plan { target.old.plan ≡ first }
    requires opened { target.old.opened ≡ true }
    requires runs { (S.state target.old.store).stopped ≡ false }
    requires new { ForSome (S.durable target.old.store) IsNew }
    ensures opened { OnOk result (target.new.opened ≡ true) }
    ensures runs { OnOk result ((S.state target.new.store).stopped ≡ false) }
{
    let begun = hear_request(alloc, target)?;
    let unknown = hear_told(target, STRANGER, ack())?;
    Ok((begun, unknown))
}

// The other member tells what became of it, answers Ok, and asks.
fn be_told<S: Store, C: Clock>(
    alloc: Global,
    target: &mut Target<S, C>,
    committed: bool,
) -> Result<(Follows, Follows, Follows), StepNo>
    requires opened { target.old.opened ≡ true }
    requires runs { (S.state target.old.store).stopped ≡ false }
    ensures opened { OnOk result (target.new.opened ≡ true) }
    ensures runs { OnOk result ((S.state target.new.store).stopped ≡ false) }
{
    let ending = ending(alloc, committed)?;
    let told = hear_told(target, MEMBER, ending)?;
    let answered = hear_told(target, MEMBER, ack())?;
    let asked = hear_told(target, MEMBER, query())?;
    Ok((told, answered, asked))
}

// What follows on all its turns.
fn all(begun: (Follows, Follows), told: (Follows, Follows, Follows), idle: Follows) -> Told {
    Told {
        begun: begun.0,
        unknown: begun.1,
        told: told.0,
        answered: told.1,
        asked: told.2,
        idle,
    }
}

// All its turns.
fn turns<S: Store, C: Clock>(
    alloc: Global,
    target: &mut Target<S, C>,
    committed: bool,
) -> Result<Told, StepNo>
    requires plan { target.old.plan ≡ first }
    requires opened { target.old.opened ≡ true }
    requires runs { (S.state target.old.store).stopped ≡ false }
    requires new { ForSome (S.durable target.old.store) IsNew }
{
    let begun = begin(alloc, target)?;
    let told = be_told(alloc, target, committed)?;
    let idle = idle(target)?;
    Ok(all(begun, told, idle))
}

/// The first target begins an attempt, and is answered Ok by an actor that is no target. Then the other
/// member tells by a Mark that the attempt is committed, or by a Verdict that it is aborted; it answers
/// Ok itself, asks what became of it, and idle work follows.
pub(crate) fn told_of_own<S: Store + Drop, C: Clock + Drop>(
    alloc: Global,
    store: S,
    clock: C,
    committed: bool,
) -> Result<Told, StepNo>
    requires made { 2 ≤ (S.state store).targets }
    requires new { IsNeverUsed (S.state store) (S.durable store) }
{
    let mut target = start_at(alloc, 0, 2, store, clock)?;
    turns(alloc, &mut target, committed)
}
