// The numbers by which the entities of paths are found.
ghost use Rattle.std.specs.Prelude.{◌≡◌};
ghost use Rattle.base_types.specs.Hash.{hash_step};
ghost use Rattle.base_types.specs.Paths.{cut_at};
ghost use Rattle.base_types.specs.Tags.{key_tag, object_tag, tag};

use crate::hash::{fnv1a, step};
use crate::id::ObjId;
use crate::key::Key;
use crate::path::{Level, Path};

// The hash with an object more.
fn object_tag(tag: u64, obj: Option<ObjId>) -> u64
    ensures { result ≡ object_tag tag obj }
{
    match obj {
        None => tag,
        Some(obj) => {
            let class = step(tag, u64::from(obj.class.number()));
            step(step(class, u64::from(obj.unit)), obj.number)
        }
    }
}

// The hash with a key more.
fn key_tag(tag: u64, key: &Option<Key>) -> u64
    ensures { result ≡ key_tag tag key.now }
{
    match key {
        None => tag,
        Some(key) => step(tag, fnv1a(key.bytes())),
    }
}

/// The 64-bit hash of the parts of a path as far as a level.
#[tactic(auto, unfolding(crate::specs::Tags::tag))]
pub fn tag_at(path: &Path, level: Level) -> u64
    ensures { result ≡ tag (cut_at level path.now) }
{
    let cont = fnv1a(&path.cont.bytes());
    match level {
        Level::Cont => cont,
        Level::Obj => object_tag(cont, path.obj),
        Level::Dkey => {
            let object = object_tag(cont, path.obj);
            key_tag(object, &path.dkey)
        }
        Level::Akey => {
            let object = object_tag(cont, path.obj);
            let dkey = key_tag(object, &path.dkey);
            key_tag(dkey, &path.akey)
        }
    }
}
