// Up to where a container is pruned.
ghost use Rattle.std.specs.Prelude.{◌≡◌, ◌<◌, ◌/◌, ◌≤◌, Some, true, false};
ghost use Rattle.std.specs.Option.{ForSome};
ghost use Rattle.daos_model.specs.declared.durable.Durable.{Durable};
ghost use Rattle.daos_model.specs.Durables.{is_enlisted};
ghost use Rattle.vos_store.specs.Conditions.{CanPrune};
ghost use Rattle.vos_store.specs.Refusals.{always_stop};
ghost use Rattle.world_base.specs.Changes.{Prunes};
ghost use Rattle.world_base.specs.Snapshots.{prune_limit};
ghost use Rattle.target_parts.specs.Keeping.{MadeOrCut};
ghost use Rattle.target_parts.specs.Parts.{Runs};
ghost use Rattle.target_snaps.specs.Limits.{limit_under};

use base_types::epoch::Epoch;
use base_types::id::ContId;
use vos_store::refusal::Stopped;
use vos_store::store::Store;

// An epoch, or the one before that of a version that isn't settled.
fn limit_under(least: Option<Epoch>, epoch: Epoch) -> Epoch
    ensures { result ≡ limit_under epoch least }
{
    match least {
        None => epoch,
        Some(first) => Epoch(epoch.0.min(first.0.saturating_sub(1))),
    }
}

/// Up to where a container may be pruned, at an epoch: below all of its versions that aren't settled.
pub fn limit_of<S: Store>(store: &S, cont: ContId, epoch: Epoch) -> Epoch
    requires running { (S.state store.now).stopped ≡ false }
    requires enlisted { ForSome (S.durable store.now) (λ d. is_enlisted d cont ≡ true) }
    ensures { ForSome (S.durable store.now) (λ d. result ≡ prune_limit cont epoch d) }
{
    limit_under(store.open_below(cont, epoch), epoch)
}

/// Prunes a container up to an epoch, by the aggregation of a number.
///
/// # Errors
///
/// `Stopped` where the store stopped.
pub fn prune_to<S: Store>(
    store: &mut S,
    cont: ContId,
    upto: Epoch,
    number: u32,
) -> Result<(), Stopped>
    requires running { (S.state store.old).stopped ≡ false }
    requires can { ForSome (S.durable store.old) (CanPrune cont upto) }
    ensures runs { Runs always_stop result (S.state store.old) (S.state store.new) (S.durable store.old) (S.durable store.new) }
    ensures made { (d : Durable) → S.durable store.old ≡ Some d
        → MadeOrCut (Prunes cont upto number) d (S.state store.old) (S.durable store.new) (S.state store.new) (S.may store.new) result }
{
    store.prune(cont, upto, number)?;
    Ok(())
}
