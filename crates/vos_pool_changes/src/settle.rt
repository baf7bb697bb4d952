// A step of an attempt is made on a pool.
ghost use Rattle.std.specs.Prelude.{◌≡◌};
ghost use Rattle.std.specs.Option.{ForSome};
ghost use Rattle.daos_model.specs.Changes.{settled};
ghost use Rattle.vos_pool_held.specs.State.{held_durable, held_may, held_state};
ghost use Rattle.vos_store.specs.Calls.{IfRunning, Makes, Turns, UsesFuse};
ghost use Rattle.vos_store.specs.Conditions.{CanSettle, IsStep};
ghost use Rattle.vos_store.specs.Refusals.{always_stop};

use crate::known::known;
use base_outside::region::Region;
use base_types::entry::Settle;
use base_types::id::AttemptId;
use vos_pool_held::held::Held;
use vos_pool_held::resting::free_blocks;
use vos_pool_settle::settle::settle as settle_opened;
use vos_store::refusal::Stopped;

/// A step of an attempt: its versions are done and its entry committed; both go; a further member is confirmed; its entry
/// goes, and its done versions stay. Takes no memory.
///
/// # Errors
///
/// `Stopped` comes only where a count of the region rose in this call, or the pool had stopped before.
pub fn settle<R: Region>(
    held: Held<R>,
    attempt: AttemptId,
    step: Settle,
) -> (Held<R>, Result<(), Stopped>)
    requires form { IsStep step }
    requires here { IfRunning (held_state R.count R.burns R.can_burn held) (ForSome (held_durable R.tells R.extent R.image held) (CanSettle attempt step)) }
    ensures call { Turns 0 always_stop result.1 (held_state R.count R.burns R.can_burn held) (held_state R.count R.burns R.can_burn result.0) }
    ensures fuse { UsesFuse always_stop result.1 (held_state R.count R.burns R.can_burn held) (held_state R.count R.burns R.can_burn result.0) }
    ensures kept { Makes (held_state R.count R.burns R.can_burn held).stopped always_stop (settled attempt step) result.1
        (held_durable R.tells R.extent R.image held) (held_durable R.tells R.extent R.image result.0) (held_may R.tells R.extent R.may_leave held) (held_may R.tells R.extent R.may_leave result.0) }
    ensures size { R.extent result.0.opened.blocks.undo.region ≡ R.extent held.opened.blocks.undo.region }
    ensures target_is { result.0.target ≡ held.target }
    ensures targets_are { result.0.targets ≡ held.targets }
{
    if held.is_stopped() {
        return (held, Err(Stopped));
    }
    known(&held);
    let Held {
        opened,
        contents,
        free,
        floor,
        why,
        target,
        targets,
    } = held;
    let mut contents = contents;
    let (opened, settled) = settle_opened(opened, attempt, step, contents.versions());
    if settled.is_err() {
        return (
            Held {
                opened,
                contents,
                free,
                floor,
                why,
                target,
                targets,
            },
            settled,
        );
    }
    contents.settle(attempt, step);
    let free = free_blocks(&opened);
    (
        Held {
            opened,
            contents,
            free,
            floor,
            why,
            target,
            targets,
        },
        settled,
    )
}
