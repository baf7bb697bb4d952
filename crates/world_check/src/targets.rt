// A target's turn as an event: whether it leads from one world to another.
ghost use Rattle.std.specs.Prelude.{◌≡◌, ◌<◌, ◌-◌, ◌||◌, length, slice_get, false, Some, IfOk, Decides};
ghost use Rattle.world_base.specs.declared.target.Life.TheVariants.{Running};
ghost use Rattle.world_check.specs.Turned.{IdlesSo, IsAfterTarget, StaysOpen};
ghost use Rattle.world_base.specs.Events.{target_plan};
ghost use Rattle.world_list.specs.RunLists.{IdlesAs, TargetHearsAs, rules_of};

use crate::hears::hears_so;
use crate::told::did_told;
use base_messages::actor::ActorId;
use base_types::epoch::TargetId;
use base_types::items::Memory;
use replay_base::told::is_left_if;
use replay_dtx::idle::idles;
use std::alloc::Global;
use world_base::did::Did;
use world_base::letter::Letter;
use world_base::target::{Life, TargetPlan, TargetState};
use world_base::world::World;
use world_list::events::Events;
use world_list::follow::{Follow, is_told, what_follows};
use world_list::letters::is_taken;
use world_same::lists::{is_joined, is_set};
use world_same::same::Same;

// The number of one of so many targets.
fn target_id(number: u16, targets: u8) -> TargetId
    requires { number < targets }
    ensures { result ≡ number }
{
    number as TargetId
}

// What the target of this number is made for.
fn plan_of(events: &Events, number: u16) -> TargetPlan
    requires { number < events.now.script.targets }
    ensures { result ≡ target_plan (rules_of events.now) number }
{
    let targets = events.script.targets;
    TargetPlan {
        me: target_id(number, targets),
        targets,
        epsilon: events.epsilon,
    }
}

// Whether a turn left the floor of a target's opening, and whether it runs.
fn stays_open(before: &TargetState, after: &TargetState) -> bool
    ensures { Decides result (StaysOpen before.now after.now) }
{
    after.opening.is_same(&before.opening) && after.life.is_same(&before.life)
}

// Whether a world is the one before, but for the letters in flight, once a target had a turn.
fn is_after_target(
    before: &World,
    after: &World,
    number: usize,
    state: &TargetState,
    follow: &Follow,
) -> bool
    requires { number < length before.now.targets }
    ensures { Decides result (IsAfterTarget before.now number state.now follow.now after.now) }
{
    after.clients.is_same(&before.clients)
        && is_set(
            after.targets.as_slice(),
            before.targets.as_slice(),
            number,
            state,
        )
        && is_told(before, after, follow)
}

// The same, and the target's turn left what none changes.
fn is_next(
    before: &World,
    after: &World,
    number: usize,
    state: &TargetState,
    next: &TargetState,
    follow: &Follow,
) -> bool
    requires { number < length before.now.targets }
    ensures { Decides result (StaysOpen state.now next.now × IsAfterTarget before.now number next.now follow.now after.now) }
{
    stays_open(state, next) && is_after_target(before, after, number, next, follow)
}

// How many letters are in flight without one.
fn without_one(letters: &[Letter]) -> usize
    ensures { result ≡ length letters.now - 1 }
{
    letters.len().saturating_sub(1)
}

// Whether a turn in which a target hears a letter leads from one world, in which it is in this state, to
// another, in which it is in that one.
fn hears_from(
    alloc: Global,
    events: &Events,
    before: &World,
    state: &TargetState,
    letter: &Letter,
    after: &World,
    next: &TargetState,
) -> Result<bool, Memory>
    requires target { letter.now.to.client ≡ false }
    requires placed { letter.now.to.number < events.now.script.targets }
    requires runs { state.now.life ≡ Running }
    requires here { slice_get before.now.targets letter.now.to.number ≡ Some state.now }
    requires there { slice_get after.now.targets letter.now.to.number ≡ Some next.now }
    ensures { IfOk result (λ yes. Decides yes (TargetHearsAs (rules_of events.now) before.now letter.now.to letter.now after.now)) }
{
    let did = did_told(
        alloc,
        before,
        after,
        without_one(before.messages.as_slice()),
    )?;
    let plan = plan_of(events, letter.to.number);
    let hears = hears_so(alloc, plan, letter.from, &letter.message, state, next, &did)?;
    if !hears {
        return Ok(false);
    }
    let follow = what_follows(alloc, before, letter.to, did)?;
    let number = usize::from(letter.to.number);
    let sent = follow.letters.as_slice();
    Ok(
        is_next(before, after, number, state, next, &follow)
            && is_taken(
                after.messages.as_slice(),
                before.messages.as_slice(),
                letter,
                sent,
            ),
    )
}

/// Whether a target's turn in which it hears a letter leads from one world to another.
pub fn target_hears(
    alloc: Global,
    events: &Events,
    before: &World,
    actor: ActorId,
    letter: &Letter,
    after: &World,
) -> Result<bool, Memory>
    ensures { IfOk result (λ yes. Decides yes (TargetHearsAs (rules_of events.now) before.now actor letter.now after.now)) }
{
    if actor.client || actor.number >= u16::from(events.script.targets) || letter.to != actor {
        return Ok(false);
    }
    let number = usize::from(letter.to.number);
    let states = (
        before.targets.as_slice().get(number),
        after.targets.as_slice().get(number),
    );
    match states {
        (Some(state), Some(next)) if state.life == Life::Running => {
            hears_from(alloc, events, before, state, letter, after, next)
        }
        _ => Ok(false),
    }
}

// Whether one of two holds.
fn either(one: bool, other: bool) -> bool
    ensures { result ≡ (one || other) }
{
    one || other
}

// Whether a target that does its idle work comes from one state to another, and this follows.
fn idles_so(
    alloc: Global,
    plan: TargetPlan,
    before: &TargetState,
    after: &TargetState,
    did: &Did,
) -> Result<bool, Memory>
    ensures { IfOk result (λ yes. Decides yes (IdlesSo plan before.now after.now did.now)) }
{
    let early = idles(alloc, false, plan, before)?;
    let late = idles(alloc, true, plan, before)?;
    let is_early = is_left_if(&Some(early), before, after, did);
    let is_late = is_left_if(&Some(late), before, after, did);
    Ok(either(is_early, is_late))
}

// Whether a target's idle work leads from one world, in which it is in this state, to another, in which it is
// in that one.
fn idles_from(
    alloc: Global,
    events: &Events,
    before: &World,
    actor: ActorId,
    state: &TargetState,
    after: &World,
    next: &TargetState,
) -> Result<bool, Memory>
    requires target { actor.client ≡ false }
    requires placed { actor.number < events.now.script.targets }
    requires runs { state.now.life ≡ Running }
    requires here { slice_get before.now.targets actor.number ≡ Some state.now }
    requires there { slice_get after.now.targets actor.number ≡ Some next.now }
    ensures { IfOk result (λ yes. Decides yes (IdlesAs (rules_of events.now) before.now actor after.now)) }
{
    let did = did_told(alloc, before, after, before.messages.len())?;
    let idles = idles_so(alloc, plan_of(events, actor.number), state, next, &did)?;
    if !idles {
        return Ok(false);
    }
    let follow = what_follows(alloc, before, actor, did)?;
    let number = usize::from(actor.number);
    let sent = follow.letters.as_slice();
    Ok(
        is_next(before, after, number, state, next, &follow)
            && is_joined(after.messages.as_slice(), before.messages.as_slice(), sent),
    )
}

/// Whether a target's idle work leads from one world to another.
pub fn target_idles(
    alloc: Global,
    events: &Events,
    before: &World,
    actor: ActorId,
    after: &World,
) -> Result<bool, Memory>
    ensures { IfOk result (λ yes. Decides yes (IdlesAs (rules_of events.now) before.now actor after.now)) }
{
    if actor.client || actor.number >= u16::from(events.script.targets) {
        return Ok(false);
    }
    let number = usize::from(actor.number);
    let states = (
        before.targets.as_slice().get(number),
        after.targets.as_slice().get(number),
    );
    match states {
        (Some(state), Some(next)) if state.life == Life::Running => {
            idles_from(alloc, events, before, actor, state, after, next)
        }
        _ => Ok(false),
    }
}
