// The epoch of a request, and the lease that covers it.
ghost use Rattle.std.specs.Prelude.{◌≡◌, ◌^◌, ◌<◌, ◌/◌, ℕ, IfOk, IfSome, Some, is_some, true, false};
ghost use Rattle.daos_model.specs.declared.durable.Durable.{Durable};
ghost use Rattle.vos_store.specs.Refusals.{always_stop};
ghost use Rattle.target_parts.specs.Covers.{CoversOrCut, ReadiesOrCut, epoch_for, heard_of};
ghost use Rattle.target_parts.specs.KnowsLaws.{with_clock};
ghost use Rattle.target_parts.specs.Parts.{Runs};
ghost use Rattle.target_parts.specs.Readings.{AreReadings, most_readings};
ghost use Rattle.target_parts.specs.Standing.{IsTarget};

use crate::knows::Knows;
use base_outside::clock::Clock;
use base_types::epoch::Epoch;
use daos_hlc::clock::Hlc;
use daos_hlc::lease::lease_for;
use vos_store::refusal::Stopped;
use vos_store::store::Store;
use world_contents::below::world::target::TargetPlan;

/// The epoch of a request: its own, which is heard, or one that is issued at the clock's reading. None
/// where no ticks are left. The clock is read once, and only where an epoch is issued.
pub fn request_epoch<C: Clock>(
    clock: &mut C,
    hlc: &mut Hlc,
    tracker: Epoch,
    ep: Option<Epoch>,
) -> Option<Epoch>
    ensures epoch { (reading : ℕ) × IfSome (C.next clock.old) (λ r. r ≡ reading) × (result ≡ epoch_for hlc.old reading tracker ep) }
    ensures heard { hlc.new ≡ heard_of result hlc.old }
    ensures clock { AreReadings C.is_read (most_readings (is_some ep)) clock.old clock.new }
{
    match ep {
        Some(epoch) => {
            hlc.hear(epoch);
            Some(epoch)
        }
        None => hlc.issue(clock.now(), tracker).ok(),
    }
}

/// Extends the lease where it doesn't cover the ticks.
pub fn cover<S: Store>(store: &mut S, ticks: u64) -> Result<(), Stopped>
    requires ticks { ticks < 2 ^ 56 }
    requires running { (S.state store.old).stopped ≡ false }
    ensures runs { Runs always_stop result (S.state store.old) (S.state store.new) (S.durable store.old) (S.durable store.new) }
    ensures covered { (d : Durable) → S.durable store.old ≡ Some d
        → CoversOrCut ticks d (S.state store.old) (S.durable store.new) (S.state store.new) (S.may store.new) result }
{
    match lease_for(ticks) {
        Some(lease) if store.lease() < ticks => store.extend_lease(lease),
        _ => Ok(()),
    }
}

/// The epoch of a request, issued or heard, which the lease then covers; none where no ticks are left.
/// The clock is read once, and only where an epoch is issued.
///
/// # Errors
///
/// `Stopped` where the store stopped.
pub fn ready<S: Store, C: Clock>(
    plan: TargetPlan,
    store: &mut S,
    clock: &mut C,
    knows: &mut Knows,
    tracker: Epoch,
    ep: Option<Epoch>,
) -> Result<Option<Epoch>, Stopped>
    requires target { IsTarget plan (S.state store.old) (S.durable store.old) knows.old }
    requires running { (S.state store.old).stopped ≡ false }
    ensures ready { (reading : ℕ) × IfSome (C.next clock.old) (λ r. r ≡ reading) × ((d : Durable) → S.durable store.old ≡ Some d
        → ReadiesOrCut (epoch_for knows.old.hlc reading tracker ep) d (S.state store.old) (S.durable store.new) (S.state store.new) (S.may store.new) result) }
    ensures heard { IfOk result (λ epoch. knows.new ≡ with_clock (heard_of epoch knows.old.hlc) knows.old) }
    ensures runs { Runs always_stop result (S.state store.old) (S.state store.new) (S.durable store.old) (S.durable store.new) }
    ensures target { IsTarget plan (S.state store.new) (S.durable store.new) knows.new }
    ensures clock { AreReadings C.is_read (most_readings (is_some ep)) clock.old clock.new }
{
    let _plan = plan;
    match request_epoch(clock, &mut knows.hlc, tracker, ep) {
        Some(epoch) => {
            cover(store, epoch.ticks())?;
            Ok(Some(epoch))
        }
        None => Ok(None),
    }
}

/// An epoch is heard of, which the lease then covers.
///
/// # Errors
///
/// `Stopped` where the store stopped.
pub fn hear<S: Store>(
    plan: TargetPlan,
    store: &mut S,
    knows: &mut Knows,
    epoch: Epoch,
) -> Result<(), Stopped>
    requires target { IsTarget plan (S.state store.old) (S.durable store.old) knows.old }
    requires running { (S.state store.old).stopped ≡ false }
    ensures covered { (d : Durable) → S.durable store.old ≡ Some d
        → CoversOrCut (epoch.0 / 256) d (S.state store.old) (S.durable store.new) (S.state store.new) (S.may store.new) result }
    ensures heard { knows.new ≡ with_clock (heard_of (Some epoch) knows.old.hlc) knows.old }
    ensures runs { Runs always_stop result (S.state store.old) (S.state store.new) (S.durable store.old) (S.durable store.new) }
    ensures target { IsTarget plan (S.state store.new) (S.durable store.new) knows.new }
{
    let _plan = plan;
    knows.hlc.hear(epoch);
    cover(store, epoch.ticks())
}
