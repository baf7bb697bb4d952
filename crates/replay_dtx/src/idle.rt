// A target does its idle work.
ghost use Rattle.std.specs.Prelude.{◌≡◌, Some, None, ◌++◌, IfOk, OnOk};
ghost use Rattle.replay_base.specs.Leaving.{IdlesAs};
ghost use Rattle.replay_dtx.specs.Dtx.{all_settled, leads};
ghost use Rattle.dtx_base.specs.Joining.{inquired};
ghost use Rattle.world_base.specs.Idle as idle;
ghost use Rattle.world_base.specs.Roles.{joins_on, member_at};

use crate::marks::start_of;
use crate::seats::seat_at;
use base_messages::message::{Post, Posts};
use base_types::id::AttemptId;
use base_types::items::{Items, Memory};
use daos_model::durable::Durable;
use dtx_base::leading::LeaderMemory;
use dtx_leader::decisions::Decisions;
use dtx_member::member::Member;
use replay_base::kept::committed;
use replay_base::leases::Covered;
use replay_base::memories::copy_memory;
use replay_base::told::{Left, sends};
use std::alloc::Global;
use world_base::target::{TargetMemory, TargetPlan, TargetState};

// What is kept once these attempts were committed, in their order.
fn all_settled(start: Covered, decided: &[AttemptId]) -> Covered
    ensures { result ≡ all_settled decided.now start }
{
    let mut start = start;
    for attempt in decided {
        start = Covered {
            durable: committed(start.durable, *attempt),
            changed: true,
        };
    }
    start
}

// What a target knows once each member was sent what it is to be told, and what is sent.
fn batched(
    alloc: Global,
    plan: TargetPlan,
    durable: &Durable,
    memory: TargetMemory,
) -> Result<(TargetMemory, Posts), Memory>
    ensures { IfOk result (λ r. r ≡ leads (idle.batch_of plan memory durable.now) memory) }
{
    let TargetMemory {
        ticks,
        stamps,
        leader,
        member,
        collecting,
    } = memory;
    let LeaderMemory {
        undecided,
        decided: _decided,
        named,
        down,
    } = leader;
    let leader = LeaderMemory {
        undecided,
        decided: Items::new(alloc),
        named,
        down,
    };
    let mut leader = Decisions::remembering(alloc, leader);
    let posts = leader.batch(seat_at(plan, durable), durable.entries.as_slice())?;
    let memory = TargetMemory {
        ticks,
        stamps,
        leader: leader.into_memory(),
        member,
        collecting,
    };
    Ok((memory, posts))
}

// What a target knows once it asked what became of what is prepared here, and what is sent.
fn inquired(
    alloc: Global,
    plan: TargetPlan,
    durable: &Durable,
    memory: TargetMemory,
) -> Result<(TargetMemory, Posts), Memory>
    ensures { IfOk result (λ r. r ≡ (joins_on (inquired durable.now.entries (member_at plan memory)).member memory, (inquired durable.now.entries (member_at plan memory)).freed.posts)) }
{
    let TargetMemory {
        ticks,
        stamps,
        leader,
        member,
        collecting,
    } = memory;
    let mut member = Member::remembering(alloc, plan.me, member);
    let posts = member.inquire(durable.entries.as_slice())?;
    let memory = TargetMemory {
        ticks,
        stamps,
        leader,
        member: member.into_memory(),
        collecting,
    };
    Ok((memory, posts))
}

// The same in the settling phase; before it nothing is asked.
fn inquired_if(
    alloc: Global,
    settling: bool,
    plan: TargetPlan,
    durable: &Durable,
    memory: TargetMemory,
) -> Result<(TargetMemory, Posts), Memory>
    ensures { IfOk result (λ r. r ≡ (joins_on (idle.inquiry_of settling plan memory durable.now).member memory, (idle.inquiry_of settling plan memory durable.now).freed.posts)) }
{
    if settling {
        inquired(alloc, plan, durable, memory)
    } else {
        Ok((memory, Items::new(alloc)))
    }
}

// Messages, and then others.
fn joined(posts: Posts, others: Posts) -> Result<Posts, Memory>
    ensures { IfOk result (λ all. all ≡ posts ++ others) }
{
    let mut all = posts.into_vec();
    let mut others = others.into_vec();
    all.append(&mut others)?;
    Ok(Items::from_vec(all))
}

/// What a target leaves that does its idle work, in the settling phase or before it.
pub fn idles(
    alloc: Global,
    settling: bool,
    plan: TargetPlan,
    before: &TargetState,
) -> Result<Left, Memory>
    ensures { IfOk result (λ left. IdlesAs settling plan before.now (Some left)) }
{
    let decided = before.memory.leader.decided.as_slice();
    let Covered { durable, changed } = all_settled(start_of(alloc, before)?, decided);
    let memory = copy_memory(alloc, &before.memory)?;
    let (memory, marks) = batched(alloc, plan, &durable, memory)?;
    let (memory, queries) = inquired_if(alloc, settling, plan, &durable, memory)?;
    let posts = joined(marks, queries)?;
    Ok(Left {
        durable,
        changed,
        memory,
        did: sends(alloc, posts, None),
    })
}
