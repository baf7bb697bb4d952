// Versions in buckets, by what they touch: those that touch one cell stand in few of them.
ghost use Rattle.std.specs.Prelude.{◌≡◌, ◌<◌};
ghost use Rattle.base_types.specs.Hash.{hash_on, hash_step};
ghost use Rattle.base_types.specs.Operations.{write_path};
ghost use Rattle.vos_aggregate.specs.Buckets.{AreOf, akey_hash, block_bucket, bucket_of, dkey_hash, object_hash};

use base_types::operation::Write;
use base_types::path::Path;

/// How many indexes of an array share a bucket, and the most records that an extent has.
pub const BLOCK: u64 = 1024;

// The hash of nothing, and what it is multiplied by at each word: those of FNV-1a.
const START: u64 = 14695981039346656037;

const PRIME: u64 = 1099511628211;

// The hash with one word more.
fn step(hash: u64, word: u64) -> u64
    ensures { result ≡ hash_step hash word }
{
    (hash ^ word).wrapping_mul(PRIME)
}

// The hash with these bytes more.
fn hash_on(start: u64, bytes: &[u8]) -> u64
    ensures { result ≡ hash_on start bytes.now }
{
    let mut hash = start;
    for byte in bytes {
        hash = step(hash, u64::from(*byte));
    }
    hash
}

// The hash of a path as far as its object.
#[tactic(auto, unfolding(crate::specs::Buckets::object_hash))]
fn object_hash(path: &Path) -> u64
    ensures { result ≡ object_hash path.now }
{
    let cont = step(START, (path.cont.0 % 18446744073709551616) as u64);
    match path.obj {
        None => cont,
        Some(obj) => {
            let class = step(cont, u64::from(obj.class.number()));
            step(step(class, u64::from(obj.unit)), obj.number)
        }
    }
}

// As far as its dkey, from the hash as far as its object.
#[tactic(auto, unfolding(crate::specs::Buckets::dkey_hash))]
fn dkey_hash(object: u64, path: &Path) -> u64
    requires { object ≡ object_hash path.now }
    ensures { result ≡ dkey_hash path.now }
{
    match &path.dkey {
        None => object,
        Some(key) => hash_on(object, key.bytes()),
    }
}

// As far as its akey, from the hash as far as its dkey.
#[tactic(auto, unfolding(crate::specs::Buckets::akey_hash))]
fn akey_hash(dkey: u64, path: &Path) -> u64
    requires { dkey ≡ dkey_hash path.now }
    ensures { result ≡ akey_hash path.now }
{
    match &path.akey {
        None => dkey,
        Some(key) => hash_on(step(dkey, 256), key.bytes()),
    }
}

/// Of so many buckets those of the punches at and above a path, and of the single values there. Those
/// of extents follow from the hash.
#[derive(Clone, Copy)]
pub struct Buckets {
    pub count: usize,
    pub object: usize,
    pub dkey: usize,
    pub akey: usize,
    pub hash: u64,
}

/// The buckets of a path.
pub fn buckets_at(path: &Path, count: usize) -> Buckets
    requires { 0 < count }
    ensures { AreOf count path.now result }
{
    let object = object_hash(path);
    let dkey = dkey_hash(object, path);
    let akey = akey_hash(dkey, path);
    Buckets {
        count,
        object: (object % count as u64) as usize,
        dkey: (dkey % count as u64) as usize,
        akey: (akey % count as u64) as usize,
        hash: akey,
    }
}

impl Buckets {
    /// The bucket of the extents of the path that begin in a block of its array.
    #[tactic(auto, unfolding(crate::specs::Buckets::block_bucket))]
    pub fn block(&self, block: u64) -> usize
        requires { 0 < self.now.count }
        ensures is { result ≡ block_bucket self.now.count self.now.hash block }
        ensures within { result < self.now.count }
    {
        (step(step(self.hash, 257), block) % self.count as u64) as usize
    }

    /// The bucket of a write at the path.
    #[tactic(auto, unfolding(crate::specs::Buckets::bucket_of))]
    pub fn of(&self, write: &Write) -> usize
        requires count { 0 < self.now.count }
        requires at { AreOf self.now.count (write_path write.now) self.now }
        ensures is { result ≡ bucket_of self.now.count write.now }
        ensures within { result < self.now.count }
    {
        match write {
            Write::Single(_, _) | Write::PunchAkey(_) => self.akey,
            Write::Extent(_, low, _) => self.block(u64::from(*low) / BLOCK),
            Write::PunchObject(_) => self.object,
            Write::PunchDkey(_) => self.dkey,
        }
    }
}
