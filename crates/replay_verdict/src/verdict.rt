// A target hears a Verdict.
ghost use Rattle.std.specs.Prelude.{◌≡◌, IfOk};
ghost use Rattle.base_messages.specs.declared.message.Message.TheVariants as message;
ghost use Rattle.replay_base.specs.Heard.{CanTryAgain};
ghost use Rattle.replay_base.specs.Leaving.{HearsAs};
ghost use Rattle.replay_verdict.specs.Tried.{heard_by, left_by, settled_by};

use crate::again::{Trial, try_all};
use base_messages::actor::ActorId;
use base_types::entry::Verdict;
use base_types::id::AttemptId;
use base_types::items::Memory;
use daos_model::durable::Durable;
use dtx_base::member::Freed;
use dtx_member::member::Member;
use replay_base::entries::is_prepared;
use replay_base::kept::{aborted, committed, copy_kept};
use replay_base::leases::Covered;
use replay_base::memories::copy_memory;
use replay_base::news::told_by;
use replay_base::told::{Left, sends};
use replay_fetch::reads::Work;
use std::alloc::Global;
use world_base::target::{TargetMemory, TargetPlan, TargetState};

// What a member knows once it heard a Verdict, and what that sets free.
fn heard(
    alloc: Global,
    plan: TargetPlan,
    attempt: AttemptId,
    ask: Option<AttemptId>,
    verdict: Verdict,
    memory: TargetMemory,
) -> Result<(TargetMemory, Freed), Memory>
    ensures { IfOk result (λ r. r ≡ heard_by plan attempt ask verdict memory) }
{
    let TargetMemory {
        ticks,
        stamps,
        leader,
        member,
        collecting,
    } = memory;
    let mut member = Member::remembering(alloc, plan.me, member);
    let freed = member.hear_verdict(attempt, ask, verdict)?;
    let memory = TargetMemory {
        ticks,
        stamps,
        leader,
        member: member.into_memory(),
        collecting,
    };
    Ok((memory, freed))
}

// What is kept once an attempt is settled by a Verdict, where it is still prepared, whoever leads it.
fn settled_by(durable: Durable, attempt: AttemptId, verdict: Verdict) -> Covered
    ensures { result ≡ settled_by verdict attempt durable }
{
    if !is_prepared(attempt, &durable) {
        return Covered {
            durable,
            changed: false,
        };
    }
    match verdict {
        Verdict::Committed => Covered {
            durable: committed(durable, attempt),
            changed: true,
        },
        Verdict::Aborted => Covered {
            durable: aborted(durable, attempt),
            changed: true,
        },
        Verdict::Undecided => Covered {
            durable,
            changed: false,
        },
    }
}

// What is left at the end.
fn left_by(alloc: Global, trial: Option<Trial>) -> Option<Left>
    ensures { result ≡ left_by trial }
{
    match trial {
        Some(trial) => {
            let Trial { work, posts } = trial;
            let Work {
                durable,
                changed,
                memory,
            } = work;
            Some(Left {
                durable,
                changed,
                memory,
                did: sends(alloc, posts, None),
            })
        }
        None => None,
    }
}

/// What a target leaves that hears a Verdict.
pub fn hears_verdict(
    alloc: Global,
    plan: TargetPlan,
    from: ActorId,
    attempt: AttemptId,
    ask: Option<AttemptId>,
    inc: u64,
    verdict: Verdict,
    before: &TargetState,
) -> Result<Option<Left>, Memory>
    requires { CanTryAgain plan before.now.durable before.now.memory }
    ensures { IfOk result (HearsAs plan from (message.Verdict attempt ask inc verdict) before.now) }
{
    let _told = (from, inc);
    let memory = copy_memory(alloc, &before.memory)?;
    let memory = told_by(verdict, attempt, memory);
    let (memory, freed) = heard(alloc, plan, attempt, ask, verdict, memory)?;
    let kept = copy_kept(alloc, &before.durable)?;
    let Covered { durable, changed } = settled_by(kept, attempt, verdict);
    let trial = Trial {
        work: Work {
            durable,
            changed,
            memory,
        },
        posts: freed.posts,
    };
    let trial = try_all(alloc, plan, freed.again.as_slice(), trial)?;
    Ok(left_by(alloc, trial))
}
