// A leader hears a Query.
ghost use Rattle.std.specs.Prelude.{◌≡◌, Some, IfOk};
ghost use Rattle.base_messages.specs.declared.message.Message.TheVariants as message;
ghost use Rattle.replay_base.specs.Leaving.{HearsAs};
ghost use Rattle.world_base.specs.Verdicts.{verdict_message};

use crate::marks::start_of;
use crate::seats::seat_at;
use base_messages::actor::ActorId;
use base_messages::message::Message;
use base_types::id::AttemptId;
use base_types::items::Memory;
use dtx_leader::decisions::Decisions;
use replay_base::leases::Covered;
use replay_base::memories::copy_memory;
use replay_base::told::{Left, says};
use std::alloc::Global;
use world_base::target::{TargetPlan, TargetState};

// What a leader answers.
fn verdict_message(
    alloc: Global,
    plan: TargetPlan,
    attempt: AttemptId,
    ask: Option<AttemptId>,
    state: &TargetState,
) -> Result<Message, Memory>
    ensures { IfOk result (λ answer. answer ≡ verdict_message plan state.now.memory attempt ask state.now.durable) }
{
    let memory = copy_memory(alloc, &state.memory)?;
    let leader = Decisions::remembering(alloc, memory.leader);
    let seat = seat_at(plan, &state.durable);
    let verdict = leader.answer_query(seat, state.durable.entries.as_slice(), attempt);
    Ok(Message::Verdict {
        attempt,
        ask,
        inc: state.durable.incarnation,
        verdict,
    })
}

/// What a target leaves that hears a Query.
pub fn hears_query(
    alloc: Global,
    plan: TargetPlan,
    from: ActorId,
    attempt: AttemptId,
    ask: Option<AttemptId>,
    before: &TargetState,
) -> Result<Left, Memory>
    ensures { IfOk result (λ left. HearsAs plan from (message.Query attempt ask) before.now (Some left)) }
{
    let answer = verdict_message(alloc, plan, attempt, ask, before)?;
    let did = says(alloc, from, answer, None)?;
    let Covered { durable, changed } = start_of(alloc, before)?;
    let memory = copy_memory(alloc, &before.memory)?;
    Ok(Left {
        durable,
        changed,
        memory,
        did,
    })
}
