// Versions of a container of a pool are discarded.
ghost use Rattle.std.specs.Prelude.{◌≡◌, true, map, IfOk};
ghost use Rattle.std.specs.Option.{ForSome};
ghost use Rattle.daos_model.specs.Changes.{discarded, is_in_range};
ghost use Rattle.daos_model.specs.Durables.{is_enlisted};
ghost use Rattle.vos_pool_held.specs.State.{held_durable, held_may, held_state};
ghost use Rattle.vos_store.specs.Answers.{discards};
ghost use Rattle.vos_store.specs.Calls.{Answers, CutDiscard, IfRunning, MakesPartly, Turns, UsesFuse};
ghost use Rattle.vos_store.specs.Refusals.{discard_open, discard_stop};

use crate::known::known;
use base_outside::region::Region;
use base_types::epoch::Epoch;
use base_types::id::ContId;
use base_types::items::Memory;
use daos_model::durable::Version;
use std::alloc::Global;
use vos_pool_held::held::Held;
use vos_pool_held::resting::free_blocks;
use vos_pool_prune::pruning::discard as discard_opened;
use vos_rows::rows::is_in_range;
use vos_store::refusal::DiscardNo;

// A mark for each version, set where it is one of the container with an epoch in the range.
fn range_marks(
    alloc: Global,
    versions: &[Version],
    cont: ContId,
    lo: Epoch,
    hi: Epoch,
) -> Result<Vec<bool>, Memory>
    ensures { IfOk result (λ marks. marks.items ≡ map (is_in_range cont lo hi) versions.now) }
{
    versions
        .iter()
        .map(|version| is_in_range(version, cont, lo, hi))
        .collect(alloc)
}

/// Removes a container's versions with epochs from `lo` to `hi`.
///
/// # Errors
///
/// `Stopped` comes before all others, and only where a count of the region rose in this call, or the pool had stopped
/// before. `Unsettled` comes exactly where one of them is unsettled, with the attempt of the one of the least epoch.
/// `Memory` comes for want of memory.
pub fn discard<R: Region>(
    held: Held<R>,
    cont: ContId,
    lo: Epoch,
    hi: Epoch,
) -> (Held<R>, Result<(), DiscardNo>)
    requires { IfRunning (held_state R.count R.burns R.can_burn held) (ForSome (held_durable R.tells R.extent R.image held) (λ d. is_enlisted d cont ≡ true)) }
    ensures call { Turns 0 discard_stop result.1 (held_state R.count R.burns R.can_burn held) (held_state R.count R.burns R.can_burn result.0) }
    ensures fuse { UsesFuse discard_stop result.1 (held_state R.count R.burns R.can_burn held) (held_state R.count R.burns R.can_burn result.0) }
    ensures answer { Answers discard_open result.1 (discards cont lo hi) (held_durable R.tells R.extent R.image held) }
    ensures kept { MakesPartly (held_state R.count R.burns R.can_burn held).stopped discard_stop (discarded cont lo hi) (CutDiscard cont lo hi) result.1
        (held_durable R.tells R.extent R.image held) (held_durable R.tells R.extent R.image result.0) (held_may R.tells R.extent R.may_leave held) (held_may R.tells R.extent R.may_leave result.0) }
    ensures size { R.extent result.0.opened.blocks.undo.region ≡ R.extent held.opened.blocks.undo.region }
    ensures target_is { result.0.target ≡ held.target }
    ensures targets_are { result.0.targets ≡ held.targets }
{
    if held.is_stopped() {
        return (held, Err(DiscardNo::Stopped));
    }
    if let Err(refusal) = held.contents.can_discard(cont, lo, hi) {
        return (held, Err(refusal));
    }
    let Ok(marks) = range_marks(held.contents.alloc, held.contents.versions(), cont, lo, hi) else {
        return (held, Err(DiscardNo::Memory));
    };
    known(&held);
    let Held {
        opened,
        contents,
        free,
        floor,
        why,
        target,
        targets,
    } = held;
    let (opened, discarded) = discard_opened(opened, cont, lo, hi, contents.versions(), &marks);
    let mut contents = contents;
    if discarded.is_err() {
        return (
            Held {
                opened,
                contents,
                free,
                floor,
                why,
                target,
                targets,
            },
            Err(DiscardNo::Stopped),
        );
    }
    contents.discard(cont, lo, hi);
    let free = free_blocks(&opened);
    (
        Held {
            opened,
            contents,
            free,
            floor,
            why,
            target,
            targets,
        },
        Ok(()),
    )
}
