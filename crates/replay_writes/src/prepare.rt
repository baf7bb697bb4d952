// A target hears a Prepare.
ghost use Rattle.std.specs.Prelude.{◌≡◌, None, IfOk, Decides};
ghost use Rattle.daos_model.specs.Forms.{AreWritesInForm};
ghost use Rattle.replay_writes.specs.Begun.{storing_for};
ghost use Rattle.replay_writes.specs.Committed.{PreparesSo};
ghost use Rattle.world_base.specs.Prepares as prepare;
ghost use Rattle.world_base.specs.Requests as asked;

use crate::ways::{Storing, Tells, ends_so, with_ticks};
use base_messages::message::Message;
use base_types::items::Memory;
use dtx_table::posts::{one, to_target};
use replay_base::kept::copy_kept;
use replay_base::leases::cover;
use replay_base::told::sends;
use std::alloc::Global;
use world_base::did::Did;
use world_base::request::PrepareRequest;
use world_base::target::{TargetMemory, TargetPlan, TargetState};

// What writes are to be stored for: an attempt that another target leads.
fn storing_for(request: &PrepareRequest) -> Storing
    ensures { result ≡ storing_for request.now }
{
    Storing {
        first: request.first,
        entry: request.entry,
        tells: Tells::Leader {
            leader: request.entry.leader,
            attempt: request.entry.attempt,
            inc: request.inc,
        },
    }
}

// What a target knows once it stored them, and what follows.
fn prepared_left(
    alloc: Global,
    request: &PrepareRequest,
    memory: &TargetMemory,
) -> Result<(TargetMemory, Did), Memory>
    ensures { IfOk result (λ left. left ≡ (asked.with_ticks request.now.entry.epoch memory.now, prepare.acks request.now None)) }
{
    let message = Message::Ack {
        attempt: request.entry.attempt,
        inc: request.inc,
        refusal: None,
    };
    let posts = one(alloc, to_target(request.entry.leader, message))?;
    let memory = with_ticks(alloc, memory, request.entry.epoch)?;
    Ok((memory, sends(alloc, posts, None)))
}

/// Whether a target that hears a Prepare comes from one state to another, and this follows.
pub fn prepares_so(
    alloc: Global,
    plan: TargetPlan,
    request: &PrepareRequest,
    before: &TargetState,
    after: &TargetState,
    did: &Did,
) -> Result<bool, Memory>
    requires { AreWritesInForm request.now.writes }
    ensures { IfOk result (λ yes. Decides yes (PreparesSo plan request.now before.now after.now did.now)) }
{
    let ticks = request.entry.epoch.ticks();
    match cover(copy_kept(alloc, &before.durable)?, false, ticks) {
        Some(start) => {
            let done = prepared_left(alloc, request, &before.memory)?;
            let storing = storing_for(request);
            let writes = request.writes.as_slice();
            ends_so(
                alloc, plan, storing, writes, &done, start, before, after, did,
            )
        }
        None => Ok(false),
    }
}
