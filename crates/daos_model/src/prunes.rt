// Which versions a prune removes.
ghost use Rattle.std.specs.Prelude.{◌≡◌, ◌&&◌, [], ◌∷◌, is_none};
ghost use Rattle.std.specs.List.{list_any};
ghost use Rattle.base_types.specs.Paths.{same_path};
ghost use Rattle.daos_model.specs.Answers.{is_before};
ghost use Rattle.daos_model.specs.Cells.{cell_at};
ghost use Rattle.daos_model.specs.Durables.{object_key, object_rest, version_key};
ghost use Rattle.daos_model.specs.Effect.{extent_cells};
ghost use Rattle.daos_model.specs.Prunes.{hides, is_going, is_hidden, is_idle, is_in_sight, is_index_in, is_needing, is_old, is_punch, is_shown, is_unseen, shows_at, shows_in, touches};
ghost use Rattle.daos_model.specs.Versions.{sees};

use crate::durable::Version;
use crate::records::count_records;
use base_types::epoch::Epoch;
use base_types::id::{ContId, ObjId};
use base_types::operation::Write;
use base_types::path::Path;
use base_types::snapshot::Snap;

// Whether one object of a class stands before another.
fn is_number_before(one: ObjId, other: ObjId) -> bool
    ensures { result ≡ is_before (one.number ∷ one.unit ∷ []) (other.number ∷ other.unit ∷ []) }
{
    one.number < other.number || (one.number == other.number && one.unit < other.unit)
}

// Whether one object of a container stands before another; none stands before all.
fn is_object_before(one: Option<ObjId>, other: Option<ObjId>) -> bool
    ensures { result ≡ is_before (object_rest one) (object_rest other) }
{
    match (one, other) {
        (Some(one), Some(other)) => {
            let (class, limit) = (one.class.number(), other.class.number());
            class < limit || (class == limit && is_number_before(one, other))
        }
        (None, Some(_)) => true,
        _ => false,
    }
}

// Whether the object of one path stands before that of another.
fn is_path_before(one: &Path, other: &Path) -> bool
    ensures { result ≡ is_before (object_key one.now.cont one.now.obj) (object_key other.now.cont other.now.obj) }
{
    one.cont.0 < other.cont.0
        || (one.cont.0 == other.cont.0 && is_object_before(one.obj, other.obj))
}

/// Whether one version stands before another in the order of versions.
pub fn is_version_before(one: &Version, other: &Version) -> bool
    ensures { result ≡ is_before (version_key one.now) (version_key other.now) }
{
    let (minor, limit) = (one.minor, other.minor);
    one.epoch.0 < other.epoch.0
        || (one.epoch.0 == other.epoch.0
            && (minor < limit
                || (minor == limit && is_path_before(one.write.path(), other.write.path()))))
}

/// Whether a version counts for what is seen below an epoch.
#[tactic(auto, unfolding(crate::specs::Versions::sees))]
pub fn is_seen(version: &Version, below: u128) -> bool
    ensures { result ≡ sees below version.now }
{
    version.done && u128::from(version.epoch.0) < below
}

fn is_punch(write: &Write) -> bool
    ensures { result ≡ is_punch write.now }
{
    matches!(
        write,
        Write::PunchObject(_) | Write::PunchDkey(_) | Write::PunchAkey(_)
    )
}

// Whether an index lies in an extent.
fn is_index_in(index: Option<u128>, low: u32, len: usize) -> bool
    ensures { result ≡ is_index_in low len index }
{
    match index {
        Some(index) => u128::from(low) <= index && index - u128::from(low) < len as u128,
        None => false,
    }
}

// Whether a single value at one path is the cell at another and an index.
fn sets_single(at: &Path, path: &Path, index: Option<u128>) -> bool
    ensures { result ≡ (same_path at.now path.now && is_none index) }
{
    at.same(path) && index.is_none()
}

// Whether the cell at a path and an index lies in an extent.
fn sets_index(at: &Path, low: u32, len: usize, path: &Path, index: Option<u128>) -> bool
    ensures { result ≡ (same_path at.now path.now && is_index_in low len index) }
{
    at.same(path) && is_index_in(index, low, len)
}

/// Whether a write says what the cell at a path and an index, or the single value, holds.
#[tactic(auto, unfolding(crate::specs::Prunes::touches))]
pub fn touches(write: &Write, path: &Path, index: Option<u128>) -> bool
    ensures { result ≡ touches (cell_at path.now index) write.now }
{
    match write {
        Write::Single(at, _) => sets_single(at, path, index),
        Write::Extent(at, low, bytes) => {
            sets_index(at, *low, count_records(at, bytes.len()), path, index)
        }
        Write::PunchObject(at) | Write::PunchDkey(at) | Write::PunchAkey(at) => at.leads_to(path),
    }
}

// Whether below a sight one version says what a cell holds, and comes after another.
#[tactic(auto, unfolding(crate::specs::Prunes::hides))]
fn hides(one: &Version, sight: u128, other: &Version, path: &Path, index: Option<u128>) -> bool
    ensures { result ≡ hides sight other.now (cell_at path.now index) one.now }
{
    is_seen(one, sight) && is_version_before(other, one) && touches(&one.write, path, index)
}

#[tactic(auto, unfolding(crate::specs::Prunes::is_hidden))]
fn is_hidden(
    versions: &[Version],
    sight: u128,
    version: &Version,
    path: &Path,
    index: Option<u128>,
) -> bool
    ensures { result ≡ is_hidden versions.now sight version.now (cell_at path.now index) }
{
    versions
        .iter()
        .any(|one| hides(one, sight, version, path, index))
}

// Whether below a sight an index of an extent has its record from this version.
fn is_any_shown(
    versions: &[Version],
    sight: u128,
    version: &Version,
    path: &Path,
    low: u32,
    bytes: &[u8],
) -> bool
    ensures { result ≡ list_any (is_shown versions.now sight version.now) (extent_cells path.now low bytes.now) }
{
    for i in 0..count_records(path, bytes.len()) {
        let index = u128::from(low) + i as u128;
        if !is_hidden(versions, sight, version, path, Some(index)) {
            return true;
        }
    }
    false
}

// Whether below a sight a cell has its bytes from this version.
#[tactic(auto, unfolding(crate::specs::Prunes::shows_at))]
fn shows_at(versions: &[Version], version: &Version, sight: u128) -> bool
    ensures { result ≡ shows_at versions.now version.now sight }
{
    if !is_seen(version, sight) {
        return false;
    }
    match &version.write {
        Write::Single(path, _) => !is_hidden(versions, sight, version, path, None),
        Write::Extent(path, low, bytes) => {
            is_any_shown(versions, sight, version, path, *low, bytes.as_slice())
        }
        Write::PunchObject(_) | Write::PunchDkey(_) | Write::PunchAkey(_) => false,
    }
}

// Whether a snapshot of a container at or below an epoch shows a version.
#[tactic(auto, unfolding(crate::specs::Prunes::shows_in))]
fn shows_in(versions: &[Version], version: &Version, cont: ContId, upto: Epoch, snap: &Snap) -> bool
    ensures { result ≡ shows_in versions.now version.now cont upto snap.now }
{
    snap.cont.0 == cont.0
        && snap.epoch.0 <= upto.0
        && shows_at(versions, version, u128::from(snap.epoch.0))
}

/// What a prune goes by: the versions of a target and its snapshots, the container, and the epoch up
/// to which it is aggregated.
#[derive(Clone, Copy)]
pub struct Plan<'a> {
    pub versions: &'a [Version],
    pub snaps: &'a [Snap],
    pub cont: ContId,
    pub upto: Epoch,
}

impl Plan<'_> {
    // Whether one of the sights shows a version.
    #[tactic(auto, unfolding(crate::specs::Prunes::is_in_sight))]
    fn is_in_sight(&self, version: &Version) -> bool
        ensures { result ≡ is_in_sight self.now.cont self.now.upto self.now.versions.now self.now.snaps.now version.now }
    {
        shows_at(self.versions, version, u128::from(self.upto.0) + 1)
            || is_in_snap(self.versions, version, self.cont, self.upto, self.snaps)
    }

    // Whether a version may go.
    #[tactic(auto, unfolding(crate::specs::Prunes::is_old))]
    fn is_old(&self, version: &Version) -> bool
        ensures { result ≡ is_old self.now.cont self.now.upto version.now }
    {
        version.done && version.write.path().cont.0 == self.cont.0 && version.epoch.0 <= self.upto.0
    }

    // Whether a version is an update that no sight shows.
    #[tactic(auto, unfolding(crate::specs::Prunes::is_unseen))]
    fn is_unseen(&self, version: &Version) -> bool
        ensures { result ≡ is_unseen self.now.cont self.now.upto self.now.versions.now self.now.snaps.now version.now }
    {
        self.is_old(version) && !is_punch(&version.write) && !self.is_in_sight(version)
    }

    // Whether a version is an update that stays, under the path of a punch and no later than it.
    #[tactic(auto, unfolding(crate::specs::Prunes::is_needing))]
    fn is_needing(&self, punch: &Version, version: &Version) -> bool
        ensures { result ≡ is_needing self.now.cont self.now.upto self.now.versions.now self.now.snaps.now punch.now version.now }
    {
        !is_punch(&version.write)
            && !is_version_before(punch, version)
            && punch.write.path().leads_to(version.write.path())
            && !self.is_unseen(version)
    }

    // Whether there is such an update.
    fn is_any_needing(&self, punch: &Version) -> bool
        ensures { result ≡ list_any (is_needing self.now.cont self.now.upto self.now.versions.now self.now.snaps.now punch.now) self.now.versions.now }
    {
        self.versions.iter().any(|one| self.is_needing(punch, one))
    }

    // Whether a version is a punch that hides no update that stays.
    #[tactic(auto, unfolding(crate::specs::Prunes::is_idle))]
    fn is_idle(&self, version: &Version) -> bool
        ensures { result ≡ is_idle self.now.cont self.now.upto self.now.versions.now self.now.snaps.now version.now }
    {
        self.is_old(version) && is_punch(&version.write) && !self.is_any_needing(version)
    }

    /// Whether the prune removes a version.
    #[tactic(auto, unfolding(crate::specs::Prunes::is_going))]
    pub fn removes(&self, version: &Version) -> bool
        ensures { result ≡ is_going self.now.cont self.now.upto self.now.versions.now self.now.snaps.now version.now }
    {
        self.is_unseen(version) || self.is_idle(version)
    }
}

fn is_in_snap(
    versions: &[Version],
    version: &Version,
    cont: ContId,
    upto: Epoch,
    snaps: &[Snap],
) -> bool
    ensures { result ≡ list_any (shows_in versions.now version.now cont upto) snaps.now }
{
    snaps
        .iter()
        .any(|snap| shows_in(versions, version, cont, upto, snap))
}
