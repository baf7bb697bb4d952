// What the others are asked, and what clients are told.
ghost use Rattle.std.specs.Prelude.{◌≡◌, map, IfOk};
ghost use Rattle.base_messages.specs.declared.message.Message.TheVariants as message;
ghost use Rattle.snap_core.specs.Snaps.{told};
ghost use Rattle.world_base.specs.Snapshots.{freeze_to, prune_to};

use base_messages::actor::ActorId;
use base_messages::message::{Message, Posts};
use base_types::epoch::{Epoch, TargetId};
use base_types::id::{AttemptId, ContId};
use base_types::items::{Items, Memory};
use base_types::outcome::Outcome;
use dtx_table::posts::{ended, to_target};
use std::alloc::Global;

/// A client is told how its attempt ended.
pub(crate) fn told(
    alloc: Global,
    client: ActorId,
    attempt: AttemptId,
    epoch: Epoch,
    outcome: Outcome,
) -> Result<Posts, Memory>
    ensures { IfOk result (λ posts. posts ≡ told client attempt epoch outcome) }
{
    ended(alloc, Some(client), attempt, epoch, outcome)
}

/// A target is asked to freeze a container at an epoch.
pub(crate) fn freeze(attempt: AttemptId, cont: ContId, epoch: Epoch) -> Message
    ensures { result ≡ message.Freeze attempt cont epoch }
{
    Message::Freeze {
        attempt,
        cont,
        epoch,
    }
}

/// A target is asked to prune a container: by a client, which tells its tracker, or by target 0, which tells the epoch.
pub(crate) fn prune(
    attempt: AttemptId,
    cont: ContId,
    tracker: Option<Epoch>,
    epoch: Option<Epoch>,
) -> Message
    ensures { result ≡ message.Prune attempt cont tracker epoch }
{
    Message::Prune {
        attempt,
        cont,
        tracker,
        epoch,
    }
}

/// Each of these targets is asked to freeze a container at an epoch.
pub(crate) fn freezes(
    alloc: Global,
    attempt: AttemptId,
    cont: ContId,
    epoch: Epoch,
    targets: &[TargetId],
) -> Result<Posts, Memory>
    ensures { IfOk result (λ posts. posts ≡ map (freeze_to attempt cont epoch) targets.now) }
{
    let mut posts = Items::new(alloc);
    for target in targets {
        posts.push(to_target(*target, freeze(attempt, cont, epoch)))?;
    }
    Ok(posts)
}

/// Each of these targets is asked to prune a container up to an epoch.
pub(crate) fn prunes(
    alloc: Global,
    attempt: AttemptId,
    cont: ContId,
    epoch: Epoch,
    targets: &[TargetId],
) -> Result<Posts, Memory>
    ensures { IfOk result (λ posts. posts ≡ map (prune_to attempt cont epoch) targets.now) }
{
    let mut posts = Items::new(alloc);
    for target in targets {
        posts.push(to_target(*target, prune(attempt, cont, None, Some(epoch))))?;
    }
    Ok(posts)
}
