// Changes of snapshots, floors and aggregated-to epochs.
ghost use Rattle.std.specs.Prelude.{◌≡◌, [], false, IfOk, unwrap_or};
ghost use Rattle.std.specs.Option.{option_to_list};
ghost use Rattle.base_types.specs.declared.outcome.FloorWhy.{FloorWhy};
ghost use Rattle.daos_model.specs.Changes.{aggregated_to, created, frozen, marked, new_snap, raised, thawed};
ghost use Rattle.vos_places.specs.Codec.{IsSnap};
ghost use Rattle.vos_store.specs.Answers.{freezes};
ghost use Rattle.vos_store.specs.Conditions.{CanFreeze, IsLeased};
ghost use Rattle.vos_store.specs.Refusals.{freeze_stop, says};
ghost use Rattle.vos_tables.specs.Changes.{AllFit, all_changed};
ghost use Rattle.vos_tables.specs.Kept.{Makes, MakesWhere, OfKept, answer_of};

use crate::change::Change;
use crate::table::Tables;
use base_types::epoch::Epoch;
use base_types::id::ContId;
use base_types::outcome::FloorWhy;
use base_types::snapshot::Snap;
use daos_model::durable::ContRow;
use vos_places::laws::tables_stay_apart;
use vos_store::refusal::FreezeNo;

// A snapshot that is frozen and not yet created.
fn new_snap(cont: ContId, s: Epoch) -> Snap
    ensures snap { result ≡ new_snap cont s }
    ensures fits { IsSnap result }
{
    Snap {
        cont,
        epoch: s,
        created: false,
    }
}

// A row whose floor is raised to an epoch, where that is above it.
fn raised(row: ContRow, e: Epoch, why: FloorWhy) -> ContRow
    ensures { result ≡ raised e why row }
{
    let mut row = row;
    if row.floor.0 < e.0 {
        row.floor = e;
        row.why = why;
    }
    row
}

// A row whose aggregated-to epoch and floor are raised to an epoch, each where that is above it.
fn marked(row: ContRow, upto: Epoch, number: u32) -> ContRow
    ensures { result ≡ raised upto (FloorWhy.Aggregate number) (aggregated_to upto number row) }
{
    let mut row = row;
    if row.aggregated.0 < upto.0 {
        row.aggregated = upto;
        row.number = number;
    }
    raised(row, upto, FloorWhy::Aggregate(number))
}

impl Tables {
    /// What freezes a snapshot of a container and raises its floor; nothing where it is frozen. The
    /// container is there, and the lease covers the epoch.
    ///
    /// # Errors
    ///
    /// `Below` exactly where the epoch is at or below the aggregated-to epoch, which it shows with
    /// the number of its aggregation. `NoPlace` exactly where that doesn't hold and 256 other places
    /// are used.
    pub fn plan_freeze(&self, cont: ContId, s: Epoch) -> Result<Option<[Change; 2]>, FreezeNo>
        ensures fits { IfOk result (λ plan. AllFit self.now (unwrap_or plan [])) }
        ensures answer { OfKept self.now (λ d.
            CanFreeze cont s d → answer_of result ≡ freezes cont s d) }
        ensures running { says freeze_stop result ≡ false }
        ensures frozen { IfOk result (λ plan. MakesWhere (CanFreeze cont s) (frozen cont s) self.now
            (all_changed (unwrap_or plan []) self.now)) }
    {
        tables_stay_apart();
        let Some((at, row)) = self.cont_at(cont) else {
            return Ok(None);
        };
        if s.0 <= row.aggregated.0 {
            return Err(FreezeNo::Below(row.aggregated, row.number));
        }
        if self.snap_at(cont, s).is_some() {
            return Ok(None);
        }
        let Some(free) = self.free_snap() else {
            return Err(FreezeNo::NoPlace);
        };
        if s.0 / 256 > self.lease() {
            return Ok(None);
        }
        let snap = new_snap(cont, s);
        let row = raised(row, s, FloorWhy::Snapshot(s));
        Ok(Some([
            Change::Snapshot(free as u8, snap),
            Change::Cont(at as u8, row),
        ]))
    }

    /// What notes that a snapshot is created; nothing where none is frozen there.
    pub fn plan_create(&self, cont: ContId, s: Epoch) -> Option<Change>
        ensures fits { AllFit self.now (option_to_list result) }
        ensures created { Makes (created cont s) self.now
            (all_changed (option_to_list result) self.now) }
    {
        tables_stay_apart();
        let (at, snap) = self.snap_at(cont, s)?;
        let mut snap = snap;
        snap.created = true;
        Some(Change::Snapshot(at as u8, snap))
    }

    /// What drops a snapshot; nothing where none is frozen there.
    pub fn plan_thaw(&self, cont: ContId, s: Epoch) -> Option<Change>
        ensures fits { AllFit self.now (option_to_list result) }
        ensures thawed { Makes (thawed cont s) self.now
            (all_changed (option_to_list result) self.now) }
    {
        tables_stay_apart();
        let (at, _) = self.snap_at(cont, s)?;
        Some(Change::Unused(at as u8))
    }

    /// What raises the aggregated-to epoch of a container, and its floor, to an epoch that the lease
    /// covers, each where it is greater.
    pub fn plan_mark(&self, cont: ContId, upto: Epoch, number: u32) -> Option<Change>
        ensures fits { AllFit self.now (option_to_list result) }
        ensures marked { MakesWhere (IsLeased upto) (marked cont upto number) self.now
            (all_changed (option_to_list result) self.now) }
    {
        tables_stay_apart();
        let (at, row) = self.cont_at(cont)?;
        if upto.0 / 256 > self.lease() {
            return None;
        }
        Some(Change::Cont(at as u8, marked(row, upto, number)))
    }
}
