// A later write that refuses an access.
ghost use Rattle.std.specs.Prelude.{◌≡◌, ◌^◌, ◌-◌, min, Some, true, false};
ghost use Rattle.std.specs.Option.{ForSome};
ghost use Rattle.daos_model.specs.declared.durable.Durable.{Durable};
ghost use Rattle.daos_model.specs.Durables.{is_enlisted};
ghost use Rattle.daos_model.specs.Forms.{is_path_in_form};
ghost use Rattle.world_contents.specs.world_base.Reads.{later_of, uncertain_to};
ghost use Rattle.target_parts.specs.Halts.{halt_stop};
ghost use Rattle.target_parts.specs.Knowing.{HasEpochs};
ghost use Rattle.target_parts.specs.Parts.{Asks, Runs};

use crate::halt::Halt;
use base_types::epoch::Epoch;
use base_types::path::Path;
use base_types::shown::Shown;
use vos_store::store::Store;
use world_contents::below::world::target::TargetPlan;

// The last epoch at which a write refuses an access, since the clocks leave open which was first.
fn uncertain_to(plan: TargetPlan, first: Option<Epoch>, epoch: Epoch) -> Epoch
    ensures { result.0 ≡ min (2 ^ 64 - 1) (uncertain_to plan first epoch).0 }
{
    let from = first.unwrap_or(epoch);
    Epoch(from.0.saturating_add(256 * u64::from(plan.epsilon)))
}

/// A later write that refuses an access on a path at an epoch, if there is one. The store isn't asked
/// where no epoch is uncertain.
pub fn later_write<S: Store>(
    store: &mut S,
    plan: TargetPlan,
    first: Option<Epoch>,
    epoch: Epoch,
    path: &Path,
) -> Result<Option<Shown>, Halt>
    requires form { is_path_in_form path.now ≡ true }
    requires running { (S.state store.old).stopped ≡ false }
    requires enlisted { ForSome (S.durable store.old) (λ d. is_enlisted d path.now.cont ≡ true) }
    requires epochs { ForSome (S.durable store.old) HasEpochs }
    ensures runs { Runs halt_stop result (S.state store.old) (S.state store.new) (S.durable store.old) (S.durable store.new) }
    ensures later { (d : Durable) → S.durable store.old ≡ Some d
        → Asks (λ later. later ≡ later_of plan first epoch path.now d) d (S.state store.old) (S.durable store.new) (S.state store.new) (S.may store.new) result }
{
    let upto = uncertain_to(plan, first, epoch);
    if upto.0 <= epoch.0 {
        return Ok(None);
    }
    Ok(store.later_write(path, epoch, upto)?)
}
