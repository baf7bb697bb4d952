// A target hears a Mark, and a leader a Marked.
ghost use Rattle.std.specs.Prelude.{◌≡◌, false, Some, IfOk};
ghost use Rattle.base_messages.specs.declared.message.Message.TheVariants as message;
ghost use Rattle.dtx_base.specs.Leading.{attempts_of};
ghost use Rattle.replay_base.specs.Leaving.{HearsAs};
ghost use Rattle.replay_dtx.specs.Dtx.{all_confirmed, all_marked, answered_memory, confirmed_one, marked_one};
ghost use Rattle.world_base.specs.Acks.{to_confirm};

use base_messages::actor::ActorId;
use base_messages::message::{AttemptIds, Message};
use base_types::epoch::TargetId;
use base_types::id::AttemptId;
use base_types::items::{Items, Memory};
use dtx_leader::decisions::Decisions;
use dtx_table::bits::has_number;
use dtx_table::led::find_led;
use replay_base::entries::is_prepared;
use replay_base::kept::{aborted, committed, confirmed, copy_kept};
use replay_base::leases::Covered;
use replay_base::memories::copy_memory;
use replay_base::news::told_of_all;
use replay_base::told::{Left, says, sends};
use std::alloc::Global;
use world_base::target::{TargetMemory, TargetPlan, TargetState};

/// Where a target begins.
pub fn start_of(alloc: Global, state: &TargetState) -> Result<Covered, Memory>
    ensures { IfOk result (λ start. start ≡ record { durable = state.now.durable; changed = false }) }
{
    Ok(Covered {
        durable: copy_kept(alloc, &state.durable)?,
        changed: false,
    })
}

// An attempt that a Mark names is settled, where it is prepared here, whoever leads it.
fn marked_one(start: Covered, attempt: AttemptId, commits: bool) -> Covered
    ensures { result ≡ marked_one (attempt, commits) start }
{
    if !is_prepared(attempt, &start.durable) {
        return start;
    }
    let durable = if commits {
        committed(start.durable, attempt)
    } else {
        aborted(start.durable, attempt)
    };
    Covered {
        durable,
        changed: true,
    }
}

// All that it names are.
fn all_marked(start: Covered, marks: &[(AttemptId, bool)]) -> Covered
    ensures { result ≡ all_marked marks.now start }
{
    let mut start = start;
    for mark in marks {
        start = marked_one(start, mark.0, mark.1);
    }
    start
}

// The attempts that it names.
fn attempts_of(alloc: Global, marks: &[(AttemptId, bool)]) -> Result<AttemptIds, Memory>
    ensures { IfOk result (λ ids. ids ≡ attempts_of marks.now) }
{
    let mut ids = Items::new(alloc);
    for mark in marks {
        ids.push(mark.0)?;
    }
    Ok(ids)
}

/// What a target leaves that hears a Mark.
pub fn hears_mark(
    alloc: Global,
    plan: TargetPlan,
    from: ActorId,
    inc: u64,
    marks: &[(AttemptId, bool)],
    before: &TargetState,
) -> Result<Left, Memory>
    ensures { IfOk result (λ left. HearsAs plan from (message.Mark inc marks.now) before.now (Some left)) }
{
    let start = start_of(alloc, before)?;
    let Covered { durable, changed } = all_marked(start, marks);
    let attempts = attempts_of(alloc, marks)?;
    let memory = copy_memory(alloc, &before.memory)?;
    let memory = told_of_all(attempts.as_slice(), memory);
    Ok(Left {
        durable,
        changed,
        memory,
        did: says(alloc, from, Message::Marked { inc, attempts }, None)?,
    })
}

// An attempt's commit is confirmed by a member, where it is committed and led here, and that is one of its
// members.
fn confirmed_one(plan: TargetPlan, member: u16, start: Covered, attempt: AttemptId) -> Covered
    ensures { result ≡ confirmed_one plan member attempt start }
{
    let Some(entry) = find_led(start.durable.entries.as_slice(), plan.me, attempt) else {
        return start;
    };
    if entry.committed && has_number(entry.members, member) {
        Covered {
            durable: confirmed(start.durable, attempt, member as TargetId),
            changed: true,
        }
    } else {
        start
    }
}

// All of these are.
fn all_confirmed(plan: TargetPlan, member: u16, start: Covered, attempts: &[AttemptId]) -> Covered
    ensures { result ≡ all_confirmed plan member attempts.now start }
{
    let mut start = start;
    for attempt in attempts {
        start = confirmed_one(plan, member, start, *attempt);
    }
    start
}

// What a leader knows once a Mark of it got its answer.
fn answered_memory(
    alloc: Global,
    member: u16,
    inc: u64,
    attempts: &[AttemptId],
    memory: &TargetMemory,
) -> Result<TargetMemory, Memory>
    ensures { IfOk result (λ after. after ≡ answered_memory member inc attempts.now memory.now) }
{
    let TargetMemory {
        ticks,
        stamps,
        leader,
        member: joins,
        collecting,
    } = copy_memory(alloc, memory)?;
    let mut leader = Decisions::remembering(alloc, leader);
    leader.hear_marked(member, inc, attempts)?;
    Ok(TargetMemory {
        ticks,
        stamps,
        leader: leader.into_memory(),
        member: joins,
        collecting,
    })
}

// What is kept once a member answered a Mark.
fn all_confirmed_if(
    plan: TargetPlan,
    member: u16,
    inc: u64,
    start: Covered,
    attempts: &[AttemptId],
) -> Covered
    ensures { result ≡ all_confirmed plan member (to_confirm inc attempts.now start.durable) start }
{
    if inc == start.durable.incarnation {
        all_confirmed(plan, member, start, attempts)
    } else {
        start
    }
}

/// What a target leaves that hears a Marked.
pub fn hears_marked(
    alloc: Global,
    plan: TargetPlan,
    from: ActorId,
    inc: u64,
    attempts: &[AttemptId],
    before: &TargetState,
) -> Result<Left, Memory>
    ensures { IfOk result (λ left. HearsAs plan from (message.Marked inc attempts.now) before.now (Some left)) }
{
    let member = from.number;
    let start = start_of(alloc, before)?;
    let Covered { durable, changed } = all_confirmed_if(plan, member, inc, start, attempts);
    Ok(Left {
        durable,
        changed,
        memory: answered_memory(alloc, member, inc, attempts, &before.memory)?,
        did: sends(alloc, Items::new(alloc), None),
    })
}
