// The versions from a place on, in chains: which of them say what a cell holds.
ghost use Rattle.std.specs.Prelude.{◌≡◌, ◌<◌, ◌&&◌, Some, None, drop, length};
ghost use Rattle.std.specs.List.{list_any};
ghost use Rattle.daos_model.specs.Cells.{cell_at};
ghost use Rattle.daos_model.specs.Prunes.{touches};
ghost use Rattle.vos_aggregate.specs.Buckets.{AreOf, akey_hash};
ghost use Rattle.vos_aggregate.specs.Saying.{AreLater, any_above, any_around, says, says_in};

use crate::buckets::{BLOCK, Buckets};
use base_types::path::Path;
use daos_model::durable::Version;
use daos_model::prunes::touches;

/// Versions in their order, and the places of those from one on in chains: `heads` has the first of
/// each bucket, `nexts` the next after each place.
#[derive(Clone, Copy)]
pub struct Later<'a> {
    pub versions: &'a [Version],
    pub heads: &'a [usize],
    pub nexts: &'a [usize],
    pub from: usize,
    ghost later: { AreLater versions.now heads.now nexts.now from },
}

// Whether a version is done and says what a cell holds.
fn is_done_saying(version: &Version, path: &Path, index: Option<u128>) -> bool
    ensures { result ≡ (version.now.done && touches (cell_at path.now index) version.now.write) }
{
    version.done && touches(&version.write, path, index)
}

impl Later<'_> {
    /// Whether a version of a bucket is seen below a sight and says what a cell holds.
    pub fn is_said_in(&self, bucket: usize, sight: u128, path: &Path, index: Option<u128>) -> bool
        requires { bucket < length self.now.heads.now }
        ensures { result ≡ list_any (says_in (length self.now.heads.now) bucket sight (cell_at path.now index)) (drop self.now.from self.now.versions.now) }
    {
        let mut at = self.heads[bucket];
        while at < self.versions.len() {
            let version = &self.versions[at];
            if u128::from(version.epoch.0) >= sight {
                return false;
            }
            if is_done_saying(version, path, index) {
                return true;
            }
            at = self.nexts[at];
        }
        false
    }

    // Whether a punch or a single value of a path or above says what a cell there holds.
    fn is_said_above(
        &self,
        buckets: &Buckets,
        sight: u128,
        path: &Path,
        index: Option<u128>,
    ) -> bool
        requires { AreOf (length self.now.heads.now) path.now buckets.now }
        ensures { result ≡ any_above (length self.now.heads.now) buckets.now sight (cell_at path.now index) (drop self.now.from self.now.versions.now) }
    {
        self.is_said_in(buckets.object, sight, path, index)
            || self.is_said_in(buckets.dkey, sight, path, index)
            || self.is_said_in(buckets.akey, sight, path, index)
    }

    // Whether an extent of a path has an index.
    fn is_said_around(&self, buckets: &Buckets, sight: u128, path: &Path, index: u64) -> bool
        requires { AreOf (length self.now.heads.now) path.now buckets.now }
        ensures { result ≡ any_around (length self.now.heads.now) (akey_hash path.now) index sight (cell_at path.now (Some index)) (drop self.now.from self.now.versions.now) }
    {
        let block = index / BLOCK;
        let cell = Some(u128::from(index));
        self.is_said_in(buckets.block(block), sight, path, cell)
            || (block > 0 && self.is_said_in(buckets.block(block - 1), sight, path, cell))
    }

    /// Whether a version that is seen below a sight says what the single value of a path is.
    pub fn is_single_said(&self, buckets: &Buckets, sight: u128, path: &Path) -> bool
        requires { AreOf (length self.now.heads.now) path.now buckets.now }
        ensures { result ≡ list_any (says sight (cell_at path.now None)) (drop self.now.from self.now.versions.now) }
    {
        self.is_said_above(buckets, sight, path, None)
    }

    /// Whether a version that is seen below a sight says what an index of the array of a path holds.
    pub fn is_index_said(&self, buckets: &Buckets, sight: u128, path: &Path, index: u64) -> bool
        requires { AreOf (length self.now.heads.now) path.now buckets.now }
        ensures { result ≡ list_any (says sight (cell_at path.now (Some index))) (drop self.now.from self.now.versions.now) }
    {
        self.is_said_around(buckets, sight, path, index)
            || self.is_said_above(buckets, sight, path, Some(u128::from(index)))
    }
}
