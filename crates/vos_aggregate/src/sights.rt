// What a prune asks of the version before those in chains.
ghost use Rattle.std.specs.Prelude.{◌≡◌, ◌/◌, ◌≤◌, length};
ghost use Rattle.std.specs.List.{list_any};
ghost use Rattle.base_types.specs.Operations.{write_path};
ghost use Rattle.base_types.specs.Paths.{record_size};
ghost use Rattle.daos_model.specs.Effect.{extent_cells};
ghost use Rattle.daos_model.specs.Prunes.{is_in_sight, is_old, is_punch, is_shown, is_unseen, shows_at, shows_in, values_of};
ghost use Rattle.vos_aggregate.specs.Buckets.{AreOf};
ghost use Rattle.vos_aggregate.specs.Places.{IsLastBefore};

use crate::buckets::Buckets;
use crate::later::Later;
use base_types::operation::Write;
use base_types::path::Path;
use base_types::snapshot::Snap;
use daos_model::durable::Version;
use daos_model::prunes::{Plan, is_seen};
use daos_model::records::count_records;

/// Whether a write is a punch.
pub fn is_punch(write: &Write) -> bool
    ensures { result ≡ is_punch write.now }
{
    matches!(
        write,
        Write::PunchObject(_) | Write::PunchDkey(_) | Write::PunchAkey(_)
    )
}

/// Whether a version may go.
#[tactic(auto, unfolding(daos_model::specs::Prunes::is_old))]
pub fn is_old(version: &Version, plan: &Plan) -> bool
    ensures { result ≡ is_old plan.now.cont plan.now.upto version.now }
{
    version.done && version.write.path().cont.0 == plan.cont.0 && version.epoch.0 <= plan.upto.0
}

impl Later<'_> {
    // Whether below a sight an index of an extent has its record from the version before these.
    fn is_any_shown(
        &self,
        buckets: &Buckets,
        version: &Version,
        sight: u128,
        path: &Path,
        low: u32,
        bytes: &[u8],
    ) -> bool
        requires last { IsLastBefore self.now.versions.now self.now.from version.now }
        requires buckets { AreOf (length self.now.heads.now) path.now buckets.now }
        requires few { length bytes.now / record_size path.now ≤ 1024 }
        ensures { result ≡ list_any (is_shown self.now.versions.now sight version.now) (extent_cells path.now low bytes.now) }
    {
        for i in 0..count_records(path, bytes.len()) {
            let index = u64::from(low) + i as u64;
            if !self.is_index_said(buckets, sight, path, index) {
                return true;
            }
        }
        false
    }

    // Whether below a sight no version hides a cell of the version before these.
    fn is_any_cell_shown(&self, buckets: &Buckets, version: &Version, sight: u128) -> bool
        requires last { IsLastBefore self.now.versions.now self.now.from version.now }
        requires buckets { AreOf (length self.now.heads.now) (write_path version.now.write) buckets.now }
        ensures { result ≡ list_any (is_shown self.now.versions.now sight version.now) (values_of version.now.write) }
    {
        match &version.write {
            Write::Single(path, _) => !self.is_single_said(buckets, sight, path),
            Write::Extent(path, low, bytes) => {
                self.is_any_shown(buckets, version, sight, path, *low, bytes.as_slice())
            }
            Write::PunchObject(_) | Write::PunchDkey(_) | Write::PunchAkey(_) => false,
        }
    }

    // Whether below a sight a cell has its bytes from it.
    #[tactic(auto, unfolding(daos_model::specs::Prunes::shows_at))]
    fn shows_at(&self, buckets: &Buckets, version: &Version, sight: u128) -> bool
        requires last { IsLastBefore self.now.versions.now self.now.from version.now }
        requires buckets { AreOf (length self.now.heads.now) (write_path version.now.write) buckets.now }
        ensures { result ≡ shows_at self.now.versions.now version.now sight }
    {
        is_seen(version, sight) && self.is_any_cell_shown(buckets, version, sight)
    }

    // Whether a snapshot of the container at or below the epoch shows it.
    #[tactic(auto, unfolding(daos_model::specs::Prunes::shows_in))]
    fn shows_in(&self, buckets: &Buckets, version: &Version, plan: &Plan, snap: &Snap) -> bool
        requires last { IsLastBefore self.now.versions.now self.now.from version.now }
        requires buckets { AreOf (length self.now.heads.now) (write_path version.now.write) buckets.now }
        ensures { result ≡ shows_in self.now.versions.now version.now plan.now.cont plan.now.upto snap.now }
    {
        snap.cont.0 == plan.cont.0
            && snap.epoch.0 <= plan.upto.0
            && self.shows_at(buckets, version, u128::from(snap.epoch.0))
    }

    // Whether one of the snapshots does.
    fn is_in_snap(&self, buckets: &Buckets, version: &Version, plan: &Plan) -> bool
        requires last { IsLastBefore self.now.versions.now self.now.from version.now }
        requires buckets { AreOf (length self.now.heads.now) (write_path version.now.write) buckets.now }
        ensures { result ≡ list_any (shows_in self.now.versions.now version.now plan.now.cont plan.now.upto) plan.now.snaps.now }
    {
        for snap in plan.snaps {
            if self.shows_in(buckets, version, plan, snap) {
                return true;
            }
        }
        false
    }

    // Whether one of the sights shows it.
    #[tactic(auto, unfolding(daos_model::specs::Prunes::is_in_sight))]
    fn is_in_sight(&self, buckets: &Buckets, version: &Version, plan: &Plan) -> bool
        requires last { IsLastBefore self.now.versions.now self.now.from version.now }
        requires buckets { AreOf (length self.now.heads.now) (write_path version.now.write) buckets.now }
        ensures { result ≡ is_in_sight plan.now.cont plan.now.upto self.now.versions.now plan.now.snaps.now version.now }
    {
        self.shows_at(buckets, version, u128::from(plan.upto.0) + 1)
            || self.is_in_snap(buckets, version, plan)
    }

    /// Whether the version before these is an update that no sight shows.
    #[tactic(auto, unfolding(daos_model::specs::Prunes::is_unseen))]
    pub fn is_unseen(&self, buckets: &Buckets, version: &Version, plan: &Plan) -> bool
        requires last { IsLastBefore self.now.versions.now self.now.from version.now }
        requires buckets { AreOf (length self.now.heads.now) (write_path version.now.write) buckets.now }
        ensures { result ≡ is_unseen plan.now.cont plan.now.upto self.now.versions.now plan.now.snaps.now version.now }
    {
        is_old(version, plan)
            && !is_punch(&version.write)
            && !self.is_in_sight(buckets, version, plan)
    }
}
