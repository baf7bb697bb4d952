// A read, made again from where its epoch is covered.
ghost use Rattle.std.specs.Prelude.{◌≡◌, IfOk};
ghost use Rattle.base_types.specs.Operations.{read_path};
ghost use Rattle.replay_base.specs.Heard.{CanRead};
ghost use Rattle.replay_fetch.specs.Fetched.{FetchLeaves};
ghost use Rattle.replay_fetch.specs.Met.{HasRead, IsSettled, left_by};
ghost use Rattle.replay_fetch.specs.Left.{left_of, memory_replied, without};
ghost use Rattle.replay_fetch.specs.declared.meets.Ending.TheVariants as ending;
ghost use Rattle.world_base.specs.Reads as fetch;
ghost use Rattle.world_base.specs.Reads.{FetchStage};

use crate::meets::{Ending, Met, meet};
use base_messages::actor::ActorId;
use base_messages::message::{Message, Reply};
use base_types::epoch::{Epoch, TargetId};
use base_types::id::AttemptId;
use base_types::items::{Items, Memory};
use base_types::shown::Shown;
use daos_model::durable::Durable;
use dtx_base::leading::LeaderMemory;
use dtx_member::member::Member;
use dtx_table::rows::remove;
use replay_base::kept::committed;
use replay_base::told::{Left, issued_for, says, sends};
use std::alloc::Global;
use world_base::did::Did;
use world_base::request::FetchRequest;
use world_base::target::{TargetMemory, TargetPlan};

/// How far a turn came: what is kept, whether anything was changed, and what is known.
#[derive(Drop)]
pub struct Work {
    pub durable: Durable,
    pub changed: bool,
    pub memory: TargetMemory,
}

/// Where a read comes to, and its ending, if it comes to one.
#[derive(Drop)]
pub struct End {
    pub work: Work,
    pub ending: Option<Ending>,
}

// An attempt goes from the list of the decided ones.
fn without(memory: TargetMemory, attempt: AttemptId) -> TargetMemory
    ensures { result ≡ without attempt memory }
{
    let TargetMemory {
        ticks,
        stamps,
        leader,
        member,
        collecting,
    } = memory;
    let LeaderMemory {
        undecided,
        decided,
        named,
        down,
    } = leader;
    let mut decided = decided.into_vec();
    remove(&mut decided, attempt);
    TargetMemory {
        ticks,
        stamps,
        leader: LeaderMemory {
            undecided,
            decided: Items::from_vec(decided),
            named,
            down,
        },
        member,
        collecting,
    }
}

// A decided attempt is settled, and goes from the list of those.
fn settle_first(work: Work, attempt: AttemptId) -> Work
    ensures { IsSettled attempt work result }
{
    let Work {
        durable,
        changed: _changed,
        memory,
    } = work;
    Work {
        durable: committed(durable, attempt),
        changed: true,
        memory: without(memory, attempt),
    }
}

// Decided attempts that stand in a read's way are settled, until it comes to its ending.
fn read_on(
    alloc: Global,
    plan: TargetPlan,
    request: &FetchRequest,
    epoch: Epoch,
    work: Work,
) -> Result<End, Memory>
    requires { CanRead plan work.durable work.memory.leader.decided }
    ensures { IfOk result (HasRead plan request.now epoch work) }
{
    let mut work = work;
    loop {
        let decided = work.memory.leader.decided.as_slice();
        match meet(alloc, plan, request, epoch, &work.durable, decided)? {
            Met::Settles(attempt) => work = settle_first(work, attempt),
            Met::Ends(ending) => {
                return Ok(End {
                    work,
                    ending: Some(ending),
                });
            }
            Met::Stuck => return Ok(End { work, ending: None }),
        }
    }
}

// What a target knows with a read's epoch.
fn ticks_known(request: &FetchRequest, epoch: Epoch, memory: TargetMemory) -> TargetMemory
    ensures { result ≡ fetch.ticks_known request.now epoch memory }
{
    if request.snapshot {
        return memory;
    }
    let ticks = memory.ticks.max(epoch.ticks());
    TargetMemory { ticks, ..memory }
}

// The read, as it is raised among the timestamps.
fn read_of(request: &FetchRequest, epoch: Epoch) -> Result<Shown, Memory>
    ensures { IfOk result (λ read. read ≡ record { by = request.now.attempt; epoch = epoch; path = read_path request.now.read }) }
{
    Ok(Shown {
        by: request.attempt,
        epoch,
        path: request.read.path().copy()?,
    })
}

// The timestamps with the read.
fn stamps_with(
    request: &FetchRequest,
    epoch: Epoch,
    stamps: Items<Shown>,
) -> Result<Items<Shown>, Memory>
    ensures { IfOk result (λ after. after ≡ fetch.stamps_with request.now epoch stamps) }
{
    let mut stamps = stamps;
    if !request.snapshot {
        stamps.push(read_of(request, epoch)?)?;
    }
    Ok(stamps)
}

// What a target knows once it replied.
fn memory_replied(
    request: &FetchRequest,
    epoch: Epoch,
    reply: &Reply,
    memory: TargetMemory,
) -> Result<TargetMemory, Memory>
    ensures { IfOk result (λ after. after ≡ memory_replied request.now epoch reply.now memory) }
{
    let TargetMemory {
        ticks,
        stamps,
        leader,
        member,
        collecting,
    } = memory;
    let stamps = match reply {
        Reply::Answer(_) => stamps_with(request, epoch, stamps)?,
        Reply::Outcome(_) => stamps,
    };
    Ok(TargetMemory {
        ticks,
        stamps,
        leader,
        member,
        collecting,
    })
}

// What follows from a Fetch that is replied to.
fn tells(
    alloc: Global,
    from: ActorId,
    request: &FetchRequest,
    epoch: Epoch,
    reply: &Reply,
) -> Result<Did, Memory>
    ensures { IfOk result (λ did. did ≡ fetch.tells request.now from epoch reply.now) }
{
    let message = Message::Fetched {
        attempt: request.attempt,
        op: request.op,
        group: request.group,
        epoch: Some(epoch),
        reply: reply.copy()?,
    };
    says(
        alloc,
        from,
        message,
        issued_for(request.attempt, request.ep, epoch),
    )
}

// A Fetch ends with this reply.
fn replies(
    alloc: Global,
    plan: TargetPlan,
    from: ActorId,
    request: &FetchRequest,
    epoch: Epoch,
    work: Work,
    reply: Reply,
) -> Result<Left, Memory>
    ensures { IfOk result (λ left. left ≡ left_of work (left_by plan request.now from epoch (ending.Replies reply) work.memory)) }
{
    let _plan = plan;
    let did = tells(alloc, from, request, epoch, &reply)?;
    let Work {
        durable,
        changed,
        memory,
    } = work;
    let memory = memory_replied(request, epoch, &reply, memory)?;
    Ok(Left {
        durable,
        changed,
        memory,
        did,
    })
}

// A Fetch that is to be tried again at its epoch.
fn fetch_at(request: &FetchRequest, epoch: Epoch) -> Result<Message, Memory>
    ensures { IfOk result (λ ask. ask ≡ fetch.fetch_at request.now epoch) }
{
    Ok(Message::Fetch {
        attempt: request.attempt,
        op: request.op,
        group: request.group,
        ep: Some(epoch),
        first: request.first,
        tracker: request.tracker,
        read: request.read.copy()?,
        snapshot: request.snapshot,
    })
}

// A Fetch waits for what becomes of an attempt that another target leads.
fn parks(
    alloc: Global,
    plan: TargetPlan,
    from: ActorId,
    request: &FetchRequest,
    epoch: Epoch,
    work: Work,
    attempt: AttemptId,
    leader: TargetId,
) -> Result<Left, Memory>
    ensures { IfOk result (λ left. left ≡ left_of work (left_by plan request.now from epoch (ending.Parks attempt leader) work.memory)) }
{
    let _from = from;
    let Work {
        durable,
        changed,
        memory,
    } = work;
    let TargetMemory {
        ticks,
        stamps,
        leader: led,
        member,
        collecting,
    } = memory;
    let mut member = Member::remembering(alloc, plan.me, member);
    let posts = member.park(fetch_at(request, epoch)?, attempt, leader)?;
    let did = sends(alloc, posts, issued_for(request.attempt, request.ep, epoch));
    Ok(Left {
        durable,
        changed,
        memory: TargetMemory {
            ticks,
            stamps,
            leader: led,
            member: member.into_memory(),
            collecting,
        },
        did,
    })
}

// A Fetch ends so.
fn finish(
    alloc: Global,
    plan: TargetPlan,
    from: ActorId,
    request: &FetchRequest,
    epoch: Epoch,
    work: Work,
    ending: Ending,
) -> Result<Left, Memory>
    ensures { IfOk result (λ left. left ≡ left_of work (left_by plan request.now from epoch ending (fetch.ticks_known request.now epoch work.memory))) }
{
    let Work {
        durable,
        changed,
        memory,
    } = work;
    let work = Work {
        durable,
        changed,
        memory: ticks_known(request, epoch, memory),
    };
    match ending {
        Ending::Replies(reply) => replies(alloc, plan, from, request, epoch, work, reply),
        Ending::Parks(attempt, leader) => {
            parks(alloc, plan, from, request, epoch, work, attempt, leader)
        }
    }
}

/// What a target leaves that reads from here on, where none of the attempts that it decided was settled
/// so far.
pub fn read_from(
    alloc: Global,
    plan: TargetPlan,
    from: ActorId,
    request: &FetchRequest,
    epoch: Epoch,
    work: Work,
) -> Result<Option<Left>, Memory>
    requires { CanRead plan work.durable work.memory.leader.decided }
    ensures { IfOk result (FetchLeaves plan from request.now work.memory (FetchStage.Reading epoch work.memory.leader.decided) work.durable work.changed) }
{
    let End { work, ending } = read_on(alloc, plan, request, epoch, work)?;
    match ending {
        Some(ending) => {
            let left = finish(alloc, plan, from, request, epoch, work, ending)?;
            Ok(Some(left))
        }
        None => Ok(None),
    }
}
