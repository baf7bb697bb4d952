// The greatest lease of the stores of all targets.
ghost use Rattle.std.specs.Prelude.{◌≡◌, ◌≤◌, ◌<◌, ◌^◌, ℕ, List, slice_get, Some};
ghost use Rattle.base_types.specs.Epochs.{restart_floor};
ghost use Rattle.daos_model.specs.declared.durable.Durable.{Durable};
ghost use Rattle.daos_model.specs.Family.{greatest_lease};
ghost use Rattle.run_opening.specs.All.{AllRun, AreKept};
ghost use Rattle.run_starts.specs.Calls.{AreCovered};

use base_types::epoch::Epoch;
use vos_store::store::Store;

// The last ticks of a clock.
const LAST_TICKS: u64 = (1 << 56) - 1;

// The greatest lease of all stores.
fn greatest_lease<S: Store>(stores: &[S]) -> u64
    requires running { AllRun S.state stores.now }
    ensures covers { AreCovered S.state stores.now result }
    ensures lease { (F : List Durable) → AreKept S.durable stores.now F → result ≡ greatest_lease F }
{
    let mut greatest = 0;
    for t in 0..stores.len() {
        greatest = stores[t].lease().max(greatest);
    }
    greatest
}

/// The greatest epoch that the lease of a store covers.
pub fn tracker_of<S: Store>(stores: &[S]) -> Epoch
    requires running { AllRun S.state stores.now }
    ensures bounded { (lease : ℕ) × (lease < 2 ^ 56) × (result ≡ record { 0 = restart_floor lease }) }
    ensures lease { (F : List Durable) → AreKept S.durable stores.now F → greatest_lease F < 2 ^ 56 → result ≡ record { 0 = restart_floor (greatest_lease F) } }
    ensures covers { (F : List Durable) → AreKept S.durable stores.now F → greatest_lease F < 2 ^ 56 → AreCovered S.state stores.now (greatest_lease F) }
{
    let lease = greatest_lease(stores).min(LAST_TICKS);
    Epoch(lease * 256 + 255)
}
