// A container of a pool is pruned.
ghost use Rattle.std.specs.Prelude.{◌≡◌, ◌≤◌, ◌+◌, OnOk};
ghost use Rattle.std.specs.Option.{ForSome};
ghost use Rattle.daos_model.specs.Changes.{pruned};
ghost use Rattle.vos_pool_held.specs.State.{held_durable, held_may, held_state};
ghost use Rattle.vos_store.specs.Calls.{CutPrune, IfRunning, MakesPartly, Turns, UsesFuse, going_count};
ghost use Rattle.vos_store.specs.Conditions.{CanPrune};
ghost use Rattle.vos_store.specs.Refusals.{always_stop};

use crate::known::known;
use base_outside::region::Region;
use base_types::epoch::Epoch;
use base_types::id::ContId;
use vos_pool_held::held::Held;
use vos_pool_held::resting::free_blocks;
use vos_pool_prune::pruning::prune as prune_opened;
use vos_store::refusal::Stopped;

/// Aggregates a container up to an epoch: raises the aggregated-to epoch and the floor to it, each where it is greater,
/// and removes the updates that neither a snapshot nor a read above sees and the punches under which no older update
/// stays. Each gives back a block at least. Takes no memory.
///
/// # Errors
///
/// `Stopped` comes only where a count of the region rose in this call, or the pool had stopped before.
pub fn prune<R: Region>(
    held: Held<R>,
    cont: ContId,
    upto: Epoch,
    number: u32,
) -> (Held<R>, Result<(), Stopped>)
    requires { IfRunning (held_state R.count R.burns R.can_burn held) (ForSome (held_durable R.tells R.extent R.image held) (CanPrune cont upto)) }
    ensures call { Turns 0 always_stop result.1 (held_state R.count R.burns R.can_burn held) (held_state R.count R.burns R.can_burn result.0) }
    ensures fuse { UsesFuse always_stop result.1 (held_state R.count R.burns R.can_burn held) (held_state R.count R.burns R.can_burn result.0) }
    ensures space { OnOk result.1 (ForSome (held_durable R.tells R.extent R.image held) (λ d.
        (held_state R.count R.burns R.can_burn held).free + going_count cont upto d ≤ (held_state R.count R.burns R.can_burn result.0).free)) }
    ensures kept { MakesPartly (held_state R.count R.burns R.can_burn held).stopped always_stop (pruned cont upto number) (CutPrune cont upto number) result.1
        (held_durable R.tells R.extent R.image held) (held_durable R.tells R.extent R.image result.0) (held_may R.tells R.extent R.may_leave held) (held_may R.tells R.extent R.may_leave result.0) }
    ensures size { R.extent result.0.opened.blocks.undo.region ≡ R.extent held.opened.blocks.undo.region }
    ensures target_is { result.0.target ≡ held.target }
    ensures targets_are { result.0.targets ≡ held.targets }
{
    if held.is_stopped() {
        return (held, Err(Stopped));
    }
    known(&held);
    let Held {
        opened,
        contents,
        free,
        floor,
        why,
        target,
        targets,
    } = held;
    let mut contents = contents;
    contents.plan(cont, upto);
    let (opened, pruned) = prune_opened(
        opened,
        cont,
        upto,
        number,
        contents.versions(),
        contents.marks(),
    );
    if pruned.is_err() {
        return (
            Held {
                opened,
                contents,
                free,
                floor,
                why,
                target,
                targets,
            },
            pruned,
        );
    }
    contents.prune(cont, upto, number);
    let free = free_blocks(&opened);
    (
        Held {
            opened,
            contents,
            free,
            floor,
            why,
            target,
            targets,
        },
        pruned,
    )
}
