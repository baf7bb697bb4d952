// The slots that paths share, and when two paths are near.
ghost use Rattle.std.specs.Prelude.{◌≡◌, ◌<◌};
ghost use Rattle.base_types.specs.Hash.{fnv1a, hash_on, hash_start};
ghost use Rattle.base_types.specs.Paths.{akey_bytes, cont_bytes, cut_at, dkey_bytes, near, number_bytes, object_bytes, path_bytes, shorter_level, slot};

use crate::hash::{START, hash_on};
use crate::id::{ContId, ObjId};
use crate::key::Key;
use crate::path::{Level, Path};

impl ContId {
    /// The sixteen bytes of the identity, the highest first.
    #[tactic(auto, unfolding(crate::specs::Paths::cont_bytes))]
    pub fn bytes(self) -> [u8; 16]
        ensures { result ≡ cont_bytes self }
    {
        self.0.to_be_bytes()
    }
}

// The hash with the object's class, record size and number more.
#[tactic(auto, unfolding(crate::specs::Paths::number_bytes))]
fn hash_object(hash: u64, obj: Option<ObjId>) -> u64
    ensures { result ≡ hash_on hash (object_bytes obj) }
{
    match obj {
        None => hash,
        Some(obj) => {
            let kind = hash_on(hash, &[obj.class.number(), obj.unit]);
            hash_on(kind, &obj.number.to_be_bytes())
        }
    }
}

// The hash with the dkey's bytes more.
fn hash_dkey(hash: u64, dkey: &Option<Key>) -> u64
    ensures { result ≡ hash_on hash (dkey_bytes dkey.now) }
{
    match dkey {
        None => hash,
        Some(key) => hash_on(hash, key.bytes()),
    }
}

// The hash with a zero byte and the akey's bytes more.
fn hash_akey(hash: u64, akey: &Option<Key>) -> u64
    ensures { result ≡ hash_on hash (akey_bytes akey.now) }
{
    match akey {
        None => hash,
        Some(key) => {
            let set_off = hash_on(hash, &[0]);
            hash_on(set_off, key.bytes())
        }
    }
}

// The hash of the path's bytes as far as a level.
fn hash_at(path: &Path, level: Level) -> u64
    ensures { result ≡ fnv1a (path_bytes (cut_at level path.now)) }
{
    let cont = hash_on(START, &path.cont.bytes());
    match level {
        Level::Cont => cont,
        Level::Obj => hash_object(cont, path.obj),
        Level::Dkey => {
            let object = hash_object(cont, path.obj);
            hash_dkey(object, &path.dkey)
        }
        Level::Akey => {
            let object = hash_object(cont, path.obj);
            let dkey = hash_dkey(object, &path.dkey);
            hash_akey(dkey, &path.akey)
        }
    }
}

// The level of the shorter of two paths.
fn shorter_level(one: &Path, other: &Path) -> Level
    ensures { result ≡ shorter_level one.now other.now }
{
    let (first, second) = (one.level(), other.level());
    if first.depth() <= second.depth() {
        first
    } else {
        second
    }
}

impl Path {
    /// The slot, below 4,096, of the path as far as a level.
    #[tactic(auto, unfolding(crate::specs::Paths::slot))]
    pub fn slot_at(&self, level: Level) -> u16
        ensures exact { result ≡ slot (cut_at level self.now) }
        ensures within { result < 4096 }
    {
        (hash_at(self, level) % 4096) as u16
    }

    /// Whether two paths overlap, or share a slot once each is cut to the level of the shorter.
    #[tactic(auto, unfolding(crate::specs::Paths::near))]
    pub fn near(&self, other: &Path) -> bool
        ensures { result ≡ near self.now other.now }
    {
        let level = shorter_level(self, other);
        self.overlaps(other) || self.slot_at(level) == other.slot_at(level)
    }
}
