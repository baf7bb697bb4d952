// A target settles what it decided.
ghost use Rattle.std.specs.Prelude.{◌≡◌, [], OnOk, Some, false};
ghost use Rattle.std.specs.Option.{ForSome};
ghost use Rattle.daos_model.specs.declared.durable.Durable.{Durable};
ghost use Rattle.vos_store.specs.Refusals.{always_stop};
ghost use Rattle.target_parts.specs.Knowing.{LeadsWell, memory_of};
ghost use Rattle.target_parts.specs.Standing.{Keeps};
ghost use Rattle.target_snaps.specs.Settling.{SettlesOrCut};

use target_parts::kept::settle_decided;
use target_parts::knows::Knows;
use vos_store::refusal::Stopped;
use vos_store::store::Store;
use world_base::target::TargetPlan;

/// Settles the attempts that it decided, in their order.
///
/// # Errors
///
/// `Stopped` where the store stopped.
pub fn settle_decisions<S: Store>(
    store: &mut S,
    plan: TargetPlan,
    knows: &mut Knows,
) -> Result<(), Stopped>
    requires running { (S.state store.old).stopped ≡ false }
    requires leads { ForSome (S.durable store.old) (LeadsWell plan (memory_of knows.old) knows.old.entries.items) }
    ensures settled { (d : Durable) → S.durable store.old ≡ Some d
        → SettlesOrCut knows.old.leader.decided d (S.state store.old) (S.durable store.new) (S.state store.new) (S.may store.new) result }
    ensures leader { OnOk result (knows.new.leader ≡ record knows.old.leader { decided = [] }) }
    ensures keeps { Keeps plan always_stop result (S.state store.old) (S.state store.new) (S.durable store.old) (S.durable store.new) knows.old knows.new }
{
    while !knows.leader.decided().is_empty() {
        let attempt = knows.leader.decided()[0];
        settle_decided(store, plan, knows, attempt)?;
    }
    Ok(())
}
