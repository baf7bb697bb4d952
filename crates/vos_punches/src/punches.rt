// The punches of a store, found by where they were made.
ghost use Rattle.std.specs.Prelude.{◌≡◌, [], OnOk, OnErr};
ghost use Rattle.base_types.specs.Paths.{cut_at};
ghost use Rattle.vos_punches.specs.Moments.{last_below};
ghost use Rattle.vos_punches.specs.Punches.{IsAdded, IsRemoved, IsSame, covering};
ghost use Rattle.vos_punches.specs.Rows.{moments_at};
ghost use Rattle.base_types.specs.declared.path.Path.{Path as PathOf};

use crate::bucket::Bucket;
use crate::moments::later_moment;
use base_types::epoch::Epoch;
use base_types::items::Memory;
use base_types::path::{Level, Path};
use base_types::tag::tag_at;
use std::alloc::Global;
use std::collections::HashMap;
use vos_levels::below::values::keys::Moment;

/// The punches of a store, whether they are settled or not: for each path the moments of its punches, in
/// order.
#[derive(Drop)]
pub struct Punches {
    buckets: HashMap<u64, Bucket>,
}

impl Punches {
    /// No punch at all, which takes no memory.
    #[tactic(auto, unfolding(crate::specs::Rows::moments_at))]
    pub fn new(alloc: Global) -> Punches
        ensures { (p : PathOf) → moments_at result p ≡ [] }
    {
        Punches {
            buckets: HashMap::new(alloc),
        }
    }

    /// A punch of a path more, made at a moment, unless it is there. Where memory is wanting all stays as it
    /// was.
    #[tactic(auto, unfolding(crate::specs::Rows::moments_at))]
    pub fn add(&mut self, alloc: Global, path: Path, at: Moment) -> Result<(), Memory>
        ensures added { OnOk result (IsAdded (moments_at self.old) (moments_at self.new) path at) }
        ensures kept { OnErr result (IsSame (moments_at self.old) (moments_at self.new)) }
    {
        let tag = tag_at(&path, Level::Akey);
        if let Some(bucket) = self.buckets.get_mut(&tag) {
            return bucket.add(alloc, path, at);
        }
        let mut bucket = Bucket::new(alloc);
        bucket.add(alloc, path, at)?;
        self.buckets.insert(tag, bucket)?;
        Ok(())
    }

    /// All punches but that of a path made at a moment.
    #[tactic(auto, unfolding(crate::specs::Rows::moments_at))]
    pub fn remove(&mut self, path: &Path, at: Moment)
        ensures { IsRemoved (moments_at self.old) (moments_at self.new) path.now at }
    {
        let tag = tag_at(path, Level::Akey);
        if let Some(bucket) = self.buckets.get_mut(&tag) {
            bucket.remove(path, at);
        }
    }

    // The last punch below an epoch of a path as far as a level.
    #[tactic(auto, unfolding(crate::specs::Rows::moments_at))]
    fn last_below(&self, path: &Path, level: Level, below: Epoch) -> Option<Moment>
        ensures { result ≡ last_below below (moments_at self.now (cut_at level path.now)) }
    {
        match self.buckets.get(&tag_at(path, level)) {
            Some(bucket) => bucket.last_below(path, level, below),
            None => None,
        }
    }

    /// When the last punch below an epoch was made that covers a path: of its object, its dkey or the path
    /// itself. It takes one look-up in a hash map for each, and there a binary search.
    pub fn covering(&self, path: &Path, below: Epoch) -> Option<Moment>
        ensures { result ≡ covering below path.now (moments_at self.now) }
    {
        let object = self.last_below(path, Level::Obj, below);
        let dkey = self.last_below(path, Level::Dkey, below);
        let akey = self.last_below(path, Level::Akey, below);
        later_moment(object, later_moment(dkey, akey))
    }
}
