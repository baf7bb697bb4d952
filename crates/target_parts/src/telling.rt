// What follows from a turn.
ghost use Rattle.std.specs.Prelude.{◌≡◌, ◌++◌, IfOk, IfErr, OnOk, OnErr};
ghost use Rattle.world_contents.specs.world_base.Requests as asked;
ghost use Rattle.target_parts.specs.Stops.{IsSilent, stop_memory};

use crate::stop::TargetStop;
use base_messages::actor::ActorId;
use base_messages::message::{Message, Post, Posts};
use base_types::epoch::Epoch;
use base_types::id::AttemptId;
use base_types::items::{Items, Memory};
use std::alloc::Global;
use world_contents::below::world::did::Did;

/// The epoch that was issued for a request that had none.
pub fn issued_for(attempt: AttemptId, ep: Option<Epoch>, epoch: Epoch) -> Option<(AttemptId, Epoch)>
    ensures { result ≡ asked.issued_for attempt ep epoch }
{
    match ep {
        None => Some((attempt, epoch)),
        Some(_own) => None,
    }
}

/// These messages are what follows, and perhaps an epoch.
pub fn sends(alloc: Global, posts: Posts, issued: Option<(AttemptId, Epoch)>) -> Did
    ensures { result ≡ asked.sends posts issued }
{
    Did {
        posts,
        lines: Items::new(alloc),
        issued,
    }
}

/// One message is what follows, and perhaps an epoch.
///
/// # Errors
///
/// For want of memory.
pub fn says(
    alloc: Global,
    to: ActorId,
    message: Message,
    issued: Option<(AttemptId, Epoch)>,
) -> Result<Did, TargetStop>
    ensures did { IfOk result (λ did. did ≡ asked.says to message issued) }
    ensures wanting { IfErr result (λ stop. stop ≡ stop_memory) }
    ensures silent { IsSilent result }
{
    let mut posts = Items::new(alloc);
    posts.push(Post { to, message })?;
    Ok(sends(alloc, posts, issued))
}

/// These messages follow others.
///
/// # Errors
///
/// For want of memory.
pub fn push_all(posts: &mut Posts, more: Posts) -> Result<(), Memory>
    ensures { OnOk result (posts.new ≡ posts.old ++ more) }
{
    for post in more.into_vec() {
        posts.push(post)?;
    }
    Ok(())
}
