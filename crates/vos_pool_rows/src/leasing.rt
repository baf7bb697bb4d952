// The lease of a pool.
ghost use Rattle.std.specs.Prelude.{◌≡◌, ◌≤◌, ◌<◌, ◌^◌};
ghost use Rattle.std.specs.Option.{ForSome};
ghost use Rattle.daos_model.specs.Changes.{leased};
ghost use Rattle.vos_pool_held.specs.State.{held_durable, held_may, held_state};
ghost use Rattle.vos_store.specs.Calls.{IfRunning, Makes, Turns, UsesFuse};
ghost use Rattle.vos_store.specs.Refusals.{always_stop};

use base_outside::region::Region;
use vos_pool_held::held::Held;
use vos_pool_held::resting::free_blocks;
use vos_store::refusal::Stopped;

/// Sets the lease, in ticks. Takes no memory.
///
/// # Errors
///
/// `Stopped` comes only where a count of the region rose in this call, or it had stopped before.
pub fn extend_lease<R: Region>(held: &mut Held<R>, ticks: u64) -> Result<(), Stopped>
    requires last { ticks < 2 ^ 56 }
    requires on { IfRunning (held_state R.count R.burns R.can_burn held.old) (ForSome (held_durable R.tells R.extent R.image held.old) (λ d. d.lease ≤ ticks)) }
    ensures call { Turns 0 always_stop result (held_state R.count R.burns R.can_burn held.old) (held_state R.count R.burns R.can_burn held.new) }
    ensures fuse { UsesFuse always_stop result (held_state R.count R.burns R.can_burn held.old) (held_state R.count R.burns R.can_burn held.new) }
    ensures free { (held_state R.count R.burns R.can_burn held.new).free ≡ (held_state R.count R.burns R.can_burn held.old).free }
    ensures size { R.extent held.new.opened.blocks.undo.region ≡ R.extent held.old.opened.blocks.undo.region }
    ensures target { held.new.target ≡ held.old.target }
    ensures kept { Makes (held_state R.count R.burns R.can_burn held.old).stopped always_stop (leased ticks) result
        (held_durable R.tells R.extent R.image held.old) (held_durable R.tells R.extent R.image held.new)
        (held_may R.tells R.extent R.may_leave held.old) (held_may R.tells R.extent R.may_leave held.new) }
{
    held.opened.extend_lease(ticks)?;
    let _free = free_blocks(&held.opened);
    if held.contents.lease < ticks {
        held.contents.extend(ticks);
    }
    Ok(())
}
