// The snapshots that target 0 holds.
ghost use Rattle.std.specs.Prelude.{◌≡◌, ◌<◌, List, length, IfOk};
ghost use Rattle.daos_model.specs.declared.durable.Durable.{Durable};
ghost use Rattle.run_opening.specs.All.{AllRun, AreKept};
ghost use Rattle.run_starts.specs.Starts.{AreHeldFirst};

use base_types::items::Memory;
use base_types::snapshot::Snaps;
use vos_store::store::Store;

/// The snapshots that the store of target 0 keeps.
///
/// # Errors
///
/// For want of memory.
pub fn held_at_first<S: Store>(stores: &[S]) -> Result<Snaps, Memory>
    requires some { 0 < length stores.now }
    requires running { AllRun S.state stores.now }
    ensures { IfOk result (λ held. (F : List Durable) → AreKept S.durable stores.now F → AreHeldFirst F held) }
{
    stores[0].snaps()
}
