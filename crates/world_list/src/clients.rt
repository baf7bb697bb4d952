// A client's turn as an event: whether it leads from one world to another.
ghost use Rattle.std.specs.Prelude.{◌≡◌, ◌<◌, length, slice_get, true, Some, IfOk, Decides};
ghost use Rattle.world_base.specs.Events.{client_plan};
ghost use Rattle.world_list.specs.Fitting.{AreInPlace, PlansFit};
ghost use Rattle.world_list.specs.Following.{IsAfter};
ghost use Rattle.world_list.specs.RunLists.{ClientHearsAs, GoesAs, rules_of};

use crate::events::Events;
use crate::follow::{Follow, is_told, what_follows};
use crate::letters::is_taken;
use base_messages::actor::ActorId;
use base_types::items::{Items, Memory};
use client_core::client::Client;
use std::alloc::Global;
use world_base::client::{ClientPlan, ClientState};
use world_base::letter::Letter;
use world_base::world::World;
use world_same::lists::{is_joined, is_set};
use world_same::same::Same;

// What the client of this number has to do.
fn client_plan(alloc: Global, events: &Events, number: u16) -> Result<ClientPlan, Memory>
    ensures { IfOk result (λ plan. plan ≡ client_plan (rules_of events.now) number) }
{
    let commands = match events.script.clients.as_slice().get(usize::from(number)) {
        Some(list) => list.copy()?,
        None => Items::new(alloc),
    };
    Ok(ClientPlan {
        number,
        targets: events.script.targets,
        attempts: events.attempts,
        commands,
    })
}

// Whether a world is the one before, but for the letters in flight, once a client had a turn.
fn is_after_client(
    before: &World,
    after: &World,
    number: usize,
    state: &ClientState,
    follow: &Follow,
) -> bool
    requires { number < length before.now.clients }
    ensures { Decides result (IsAfter before.now number state.now follow.now after.now) }
{
    after.targets.is_same(&before.targets)
        && is_set(
            after.clients.as_slice(),
            before.clients.as_slice(),
            number,
            state,
        )
        && is_told(before, after, follow)
}

// Whether a client's turn without a message leads from one world, in which it is in this state, to
// another.
fn goes_from(
    alloc: Global,
    events: &Events,
    before: &World,
    actor: ActorId,
    state: &ClientState,
    after: &World,
) -> Result<bool, Memory>
    requires client { actor.client ≡ true }
    requires here { slice_get before.now.clients actor.number ≡ Some state.now }
    requires plans { PlansFit (rules_of events.now) }
    requires places { AreInPlace (rules_of events.now) before.now }
    ensures turn { IfOk result (λ yes. Decides yes (GoesAs (rules_of events.now) before.now actor after.now)) }
    ensures places { IfOk result (λ yes. yes ≡ true → AreInPlace (rules_of events.now) after.now) }
{
    let mut client = Client::at(alloc, client_plan(alloc, events, actor.number)?, state)?;
    let did = client.next()?;
    let follow = what_follows(alloc, before, actor, did)?;
    let number = usize::from(actor.number);
    let sent = follow.letters.as_slice();
    Ok(
        is_after_client(before, after, number, client.state(), &follow)
            && is_joined(after.messages.as_slice(), before.messages.as_slice(), sent),
    )
}

/// Whether a client's turn without a message leads from one world to another.
pub fn client_goes(
    alloc: Global,
    events: &Events,
    before: &World,
    actor: ActorId,
    after: &World,
) -> Result<bool, Memory>
    requires plans { PlansFit (rules_of events.now) }
    requires places { AreInPlace (rules_of events.now) before.now }
    ensures turn { IfOk result (λ yes. Decides yes (GoesAs (rules_of events.now) before.now actor after.now)) }
    ensures places { IfOk result (λ yes. yes ≡ true → AreInPlace (rules_of events.now) after.now) }
{
    if !actor.client {
        return Ok(false);
    }
    match before.clients.as_slice().get(usize::from(actor.number)) {
        Some(state) => goes_from(alloc, events, before, actor, state, after),
        None => Ok(false),
    }
}

// Whether a client's turn in which it hears a letter leads from one world, in which it is in this
// state, to another.
fn hears_from(
    alloc: Global,
    events: &Events,
    before: &World,
    state: &ClientState,
    letter: &Letter,
    after: &World,
) -> Result<bool, Memory>
    requires client { letter.now.to.client ≡ true }
    requires awake { state.now.skip ≡ 0 }
    requires here { slice_get before.now.clients letter.now.to.number ≡ Some state.now }
    requires plans { PlansFit (rules_of events.now) }
    requires places { AreInPlace (rules_of events.now) before.now }
    ensures turn { IfOk result (λ yes. Decides yes (ClientHearsAs (rules_of events.now) before.now letter.now.to letter.now after.now)) }
    ensures places { IfOk result (λ yes. yes ≡ true → AreInPlace (rules_of events.now) after.now) }
{
    let actor = letter.to;
    let mut client = Client::at(alloc, client_plan(alloc, events, actor.number)?, state)?;
    let did = client.hear(letter.message.copy()?)?;
    let follow = what_follows(alloc, before, actor, did)?;
    let number = usize::from(actor.number);
    let sent = follow.letters.as_slice();
    Ok(
        is_after_client(before, after, number, client.state(), &follow)
            && is_taken(
                after.messages.as_slice(),
                before.messages.as_slice(),
                letter,
                sent,
            ),
    )
}

/// Whether a client's turn in which it hears a letter leads from one world to another.
pub fn client_hears(
    alloc: Global,
    events: &Events,
    before: &World,
    actor: ActorId,
    letter: &Letter,
    after: &World,
) -> Result<bool, Memory>
    requires plans { PlansFit (rules_of events.now) }
    requires places { AreInPlace (rules_of events.now) before.now }
    ensures turn { IfOk result (λ yes. Decides yes (ClientHearsAs (rules_of events.now) before.now actor letter.now after.now)) }
    ensures places { IfOk result (λ yes. yes ≡ true → AreInPlace (rules_of events.now) after.now) }
{
    if !actor.client || letter.to != actor {
        return Ok(false);
    }
    match before.clients.as_slice().get(usize::from(actor.number)) {
        Some(state) if state.skip == 0 => {
            hears_from(alloc, events, before, state, letter, after)
        }
        _ => Ok(false),
    }
}
