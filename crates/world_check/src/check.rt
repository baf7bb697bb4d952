// Whether a list of events is a run.
ghost use Rattle.std.specs.Prelude.{◌≡◌, ◌≤◌, ◌⊎◌, length, take, true, IfOk, Decides};
ghost use Rattle.world_list.specs.Fitting.{AreInPlace, PlansFit};
ghost use Rattle.world_list.specs.RunLists.{IsRunFrom, IsRunList, LeadsTo, TargetHearsAs, ClientHearsAs, last_world, rules_of};

use crate::starts::starts_well;
use crate::targets::{target_hears, target_idles};
use base_messages::actor::ActorId;
use base_types::items::Memory;
use std::alloc::Global;
use world_base::letter::Letter;
use world_base::world::World;
use world_list::clients::{client_goes, client_hears};
use world_list::events::{Event, EventKind, Events};

// Whether an actor's turn in which it hears a letter leads from one world to another.
fn hears(
    alloc: Global,
    events: &Events,
    before: &World,
    actor: ActorId,
    letter: &Letter,
    after: &World,
) -> Result<bool, Memory>
    requires plans { PlansFit (rules_of events.now) }
    requires places { AreInPlace (rules_of events.now) before.now }
    ensures turn { IfOk result (λ yes. Decides yes (ClientHearsAs (rules_of events.now) before.now actor letter.now after.now ⊎ TargetHearsAs (rules_of events.now) before.now actor letter.now after.now)) }
    ensures places { IfOk result (λ yes. yes ≡ true → AreInPlace (rules_of events.now) after.now) }
{
    if actor.client {
        client_hears(alloc, events, before, actor, letter, after)
    } else {
        target_hears(alloc, events, before, actor, letter, after)
    }
}

// Whether an event leads from one world to another.
fn leads_to(alloc: Global, events: &Events, before: &World, event: &Event) -> Result<bool, Memory>
    requires plans { PlansFit (rules_of events.now) }
    requires places { AreInPlace (rules_of events.now) before.now }
    ensures turn { IfOk result (λ yes. Decides yes (LeadsTo (rules_of events.now) before.now event.now.kind event.now.actor event.now.heard event.now.after)) }
    ensures places { IfOk result (λ yes. yes ≡ true → AreInPlace (rules_of events.now) event.now.after) }
{
    match (event.kind, &event.heard) {
        (EventKind::Hear, Some(letter)) => {
            hears(alloc, events, before, event.actor, letter, &event.after)
        }
        (EventKind::GoOn, None) => { client_goes(alloc, events, before, event.actor, &event.after) }
        (EventKind::Idle, None) => target_idles(alloc, events, before, event.actor, &event.after),
        _ => Ok(false),
    }
}

// The world before an event of a list.
fn world_before(events: &Events, i: usize) -> &World
    requires { i ≤ length events.now.list }
    ensures { result.now ≡ last_world events.now.start (take i events.now.list) }
{
    if i == 0 {
        &events.start
    } else {
        &events.list.as_slice()[i - 1].after
    }
}

// Whether each event leads from the world before it to the one after it.
fn goes_on(alloc: Global, events: &Events) -> Result<bool, Memory>
    requires plans { PlansFit (rules_of events.now) }
    requires places { AreInPlace (rules_of events.now) events.now.start }
    ensures { IfOk result (λ yes. Decides yes (IsRunFrom (rules_of events.now) events.now.start events.now.list)) }
{
    let list = events.list.as_slice();
    for i in 0..list.len() {
        let leads = leads_to(alloc, events, world_before(events, i), &list[i])?;
        if !leads {
            return Ok(false);
        }
    }
    Ok(true)
}

/// Whether a list of events is a run: it starts well, and each event, of its kind, by its actor and with the
/// letter that it hears, leads from the world before it to the one after it.
///
/// # Errors
///
/// For want of memory alone.
pub fn check_list(alloc: Global, events: &Events) -> Result<bool, Memory>
    ensures { IfOk result (λ yes. Decides yes (IsRunList events.now)) }
{
    if !starts_well(events) {
        return Ok(false);
    }
    goes_on(alloc, events)
}
