// A leader hears an Ack.
ghost use Rattle.std.specs.Prelude.{◌≡◌, Some, None, IfOk, if◌then◌else◌};
ghost use Rattle.base_types.specs.declared.entry.Settle.TheVariants.{Abort};
ghost use Rattle.base_messages.specs.declared.message.Message.TheVariants as message;
ghost use Rattle.daos_model.specs.Changes.{settled};
ghost use Rattle.dtx_base.specs.Leading.{ack_heard};
ghost use Rattle.replay_base.specs.Leaving.{HearsAs};
ghost use Rattle.replay_dtx.specs.Dtx.{leads};
ghost use Rattle.world_base.specs.Acks as ack;
ghost use Rattle.world_base.specs.Roles.{leader_at};

use crate::seats::seat_at;
use base_messages::actor::ActorId;
use base_messages::message::Posts;
use base_types::id::AttemptId;
use base_types::items::Memory;
use base_types::outcome::Outcome;
use daos_model::durable::Durable;
use dtx_leader::decisions::Decisions;
use dtx_table::bits::is_other_number;
use dtx_table::led::find_led;
use dtx_table::rows::find;
use replay_base::kept::{aborted, copy_kept};
use replay_base::memories::copy_memory;
use replay_base::told::{Left, sends};
use std::alloc::Global;
use world_base::target::{TargetMemory, TargetPlan, TargetState};

// Whether a target waits for the Ack of a member.
#[tactic(auto, unfolding(world_base::specs::Acks::is_awaited))]
fn is_awaited(
    plan: TargetPlan,
    state: &TargetState,
    member: u16,
    attempt: AttemptId,
    inc: u64,
) -> bool
    ensures { result ≡ ack.is_awaited member attempt inc (leader_at plan state.now.memory state.now.durable) }
{
    if inc != state.durable.incarnation {
        return false;
    }
    let Some(entry) = find_led(state.durable.entries.as_slice(), plan.me, attempt) else {
        return false;
    };
    match find(state.memory.leader.undecided.as_slice(), attempt) {
        Some(_undecided) => is_other_number(&entry, member),
        None => false,
    }
}

// Whether its Ack counts, and refuses.
fn is_refusing(
    plan: TargetPlan,
    state: &TargetState,
    member: u16,
    attempt: AttemptId,
    inc: u64,
    refusal: &Option<Outcome>,
) -> bool
    ensures { result ≡ ack.is_refusing member attempt inc refusal.now (leader_at plan state.now.memory state.now.durable) }
{
    is_awaited(plan, state, member, attempt, inc) && refusal.is_some()
}

// What a leader knows once it heard an Ack, and what it sends.
fn heard(
    alloc: Global,
    plan: TargetPlan,
    member: u16,
    attempt: AttemptId,
    inc: u64,
    refusal: &Option<Outcome>,
    state: &TargetState,
) -> Result<(TargetMemory, Posts), Memory>
    ensures { IfOk result (λ r. r ≡ leads (ack_heard member attempt inc refusal.now (leader_at plan state.now.memory state.now.durable)) state.now.memory) }
{
    let TargetMemory {
        ticks,
        stamps,
        leader,
        member: joins,
        collecting,
    } = copy_memory(alloc, &state.memory)?;
    let mut leader = Decisions::remembering(alloc, leader);
    let seat = seat_at(plan, &state.durable);
    let entries = state.durable.entries.as_slice();
    let posts = leader.hear_ack(seat, entries, member, attempt, inc, refusal)?;
    let memory = TargetMemory {
        ticks,
        stamps,
        leader: leader.into_memory(),
        member: joins,
        collecting,
    };
    Ok((memory, posts))
}

// What is kept once an attempt was aborted, if it is.
fn aborted_if(durable: Durable, attempt: AttemptId, refused: bool) -> Durable
    ensures { result ≡ (if refused then settled attempt Abort durable else durable) }
{
    if refused {
        aborted(durable, attempt)
    } else {
        durable
    }
}

/// What a target leaves that hears an Ack.
pub fn hears_ack(
    alloc: Global,
    plan: TargetPlan,
    from: ActorId,
    attempt: AttemptId,
    inc: u64,
    refusal: &Option<Outcome>,
    before: &TargetState,
) -> Result<Left, Memory>
    ensures { IfOk result (λ left. HearsAs plan from (message.Ack attempt inc refusal.now) before.now (Some left)) }
{
    let member = from.number;
    let (memory, posts) = heard(alloc, plan, member, attempt, inc, refusal, before)?;
    let refused = is_refusing(plan, before, member, attempt, inc, refusal);
    Ok(Left {
        durable: aborted_if(copy_kept(alloc, &before.durable)?, attempt, refused),
        changed: refused,
        memory,
        did: sends(alloc, posts, None),
    })
}
