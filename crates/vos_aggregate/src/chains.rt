// Places in chains, one for each bucket.
ghost use Rattle.std.specs.Prelude.{◌≡◌, ◌+◌, ◌<◌, List, ℕ, length, slice_index};
ghost use Rattle.vos_aggregate.specs.Chains.{AreChained};

/// Puts the place before those in chains first in that of its bucket.
pub fn chain(heads: &mut [usize], nexts: &mut [usize], bucket: usize, at: usize)
    requires bucket { bucket < length heads.old }
    requires at { at < length nexts.old }
    ensures { (buckets : List ℕ) → length buckets ≡ length nexts.old → slice_index buckets at ≡ bucket → AreChained buckets heads.old nexts.old (at + 1) → AreChained buckets heads.new nexts.new at }
{
    nexts[at] = heads[bucket];
    heads[bucket] = at;
}
