// An entry and its writes are prepared in a pool.
ghost use Rattle.std.specs.Prelude.{◌≡◌, ◌≤◌, true, false, IfNone, IfSome, MatchResult};
ghost use Rattle.std.specs.List.{list_all};
ghost use Rattle.std.specs.Option.{ForSome};
ghost use Rattle.daos_model.specs.Blocks.{blocks};
ghost use Rattle.daos_model.specs.Changes.{prepared};
ghost use Rattle.vos_pool_changes.specs.Taking.{can_be_taken};
ghost use Rattle.vos_pool_held.specs.State.{held_durable, held_may, held_state};
ghost use Rattle.vos_store.specs.Answers.{PrepareWhy};
ghost use Rattle.vos_store.specs.Calls.{IfRunning, Makes, Turns, UsesFuse};
ghost use Rattle.vos_store.specs.Conditions.{CanPrepare, IsPreparable};
ghost use Rattle.vos_store.specs.Refusals.{prepare_stop};

use crate::known::known;
use crate::taking::all_can_be_taken;
use base_outside::region::Region;
use base_types::entry::{Entry, Settle};
use base_types::operation::MinorWrite;
use daos_model::accounts::blocks;
use vos_pool_held::held::Held;
use vos_pool_held::resting::free_blocks;
use vos_pool_write::preparing::prepare as prepare_opened;
use vos_store::refusal::PrepareNo;

// Why nothing is prepared, before anything is tried.
fn refusal<R: Region>(held: &Held<R>, writes: &[MinorWrite], need: u32) -> Option<PrepareNo>
    ensures why { IfSome result (PrepareWhy need held.now.free) }
    ensures stops { IfSome result (λ no. prepare_stop no ≡ held.now.opened.blocks.undo.stopped) }
    ensures running { IfNone result (held.now.opened.blocks.undo.stopped ≡ false) }
    ensures room { IfNone result (need ≤ held.now.free) }
    ensures taken { IfNone result (list_all can_be_taken writes.now ≡ true) }
{
    let free = held.free;
    if held.is_stopped() {
        Some(PrepareNo::Stopped)
    } else if free < need {
        Some(PrepareNo::NoSpace { need, free })
    } else if !all_can_be_taken(writes) {
        Some(PrepareNo::Memory)
    } else {
        None
    }
}

/// Adds an entry and its writes, unsettled.
///
/// # Errors
///
/// `Stopped` comes before all others, and only where a count of the region rose in this call, or the pool had stopped
/// before. `NoSpace` comes exactly where fewer blocks are free than the writes may take, with both numbers. `Memory` comes
/// for want of memory, and for writes that no object can take.
pub fn prepare<R: Region>(
    held: Held<R>,
    entry: &Entry,
    writes: &[MinorWrite],
) -> (Held<R>, Result<(), PrepareNo>)
    requires form { IsPreparable (held_state R.count R.burns R.can_burn held) entry.now writes.now }
    requires here { IfRunning (held_state R.count R.burns R.can_burn held) (ForSome (held_durable R.tells R.extent R.image held) (CanPrepare (held_state R.count R.burns R.can_burn held) entry.now writes.now)) }
    ensures call { Turns (blocks writes.now) prepare_stop result.1 (held_state R.count R.burns R.can_burn held) (held_state R.count R.burns R.can_burn result.0) }
    ensures fuse { UsesFuse prepare_stop result.1 (held_state R.count R.burns R.can_burn held) (held_state R.count R.burns R.can_burn result.0) }
    ensures space { MatchResult result.1 (λ _. blocks writes.now ≤ (held_state R.count R.burns R.can_burn held).free)
        (PrepareWhy (blocks writes.now) (held_state R.count R.burns R.can_burn held).free) }
    ensures kept { Makes (held_state R.count R.burns R.can_burn held).stopped prepare_stop (prepared entry.now writes.now) result.1
        (held_durable R.tells R.extent R.image held) (held_durable R.tells R.extent R.image result.0) (held_may R.tells R.extent R.may_leave held) (held_may R.tells R.extent R.may_leave result.0) }
    ensures size { R.extent result.0.opened.blocks.undo.region ≡ R.extent held.opened.blocks.undo.region }
    ensures target_is { result.0.target ≡ held.target }
    ensures targets_are { result.0.targets ≡ held.targets }
{
    let need = blocks(writes);
    if let Some(no) = refusal(&held, writes, need) {
        return (held, Err(no));
    }
    known(&held);
    let Held {
        opened,
        contents,
        free,
        floor,
        why,
        target,
        targets,
    } = held;
    let mut contents = contents;
    // An attempt that is prepared has no entry. Where its region doesn't tell its bytes nothing else says so of memory.
    contents.settle(entry.attempt, Settle::Forget);
    if contents.ready(entry, writes).is_err() {
        return (
            Held {
                opened,
                contents,
                free,
                floor,
                why,
                target,
                targets,
            },
            Err(PrepareNo::Memory),
        );
    }
    let (opened, written) = prepare_opened(opened, entry, writes);
    if written.is_err() {
        let free = free - need;
        return (
            Held {
                opened,
                contents,
                free,
                floor,
                why,
                target,
                targets,
            },
            Err(PrepareNo::Stopped),
        );
    }
    contents.prepare(*entry);
    let free = free_blocks(&opened);
    (
        Held {
            opened,
            contents,
            free,
            floor,
            why,
            target,
            targets,
        },
        Ok(()),
    )
}
