// Numbers of dkeys, akeys and writes, by which they are looked for.
ghost use Rattle.std.specs.Prelude.{◌≡◌, ◌<◌, ◌≤◌};
ghost use Rattle.vos_scan.specs.Chains.{akey_place, hashed, hashed_key, object_place, place_of};

use base_types::id::ObjId;
use base_types::key::Key;
use base_types::operation::Write;
use base_types::path::Path;

// A number below 1,024 that bytes make of another one.
fn hashed(number: usize, bytes: &[u8]) -> usize
    requires { number < 1024 }
    ensures is { result ≡ hashed number bytes.now }
    ensures within { result < 1024 }
{
    let mut made = number;
    for byte in bytes {
        made = (made * 31 + usize::from(*byte)) % 1024;
    }
    made
}

// The number that a key, if there is one, makes of another one.
fn hashed_key(number: usize, key: &Option<Key>) -> usize
    requires { number < 1024 }
    ensures is { result ≡ hashed_key number key.now }
    ensures within { result < 1024 }
{
    match key {
        None => number,
        Some(key) => hashed(number, key.bytes()),
    }
}

// The number of an object, if there is one.
fn object_place(obj: Option<ObjId>) -> usize
    ensures is { result ≡ object_place obj }
    ensures within { result < 1024 }
{
    match obj {
        None => 0,
        Some(obj) => (obj.number % 1024) as usize,
    }
}

/// The number of the dkey that a path names, and of its object, below 1,024.
pub fn dkey_place(path: &Path) -> usize
    ensures { result < 1024 }
{
    hashed_key(object_place(path.obj), &path.dkey)
}

/// The number of the akey that a path names, below 1,024.
#[tactic(auto, unfolding(crate::specs::Chains::akey_place))]
pub fn akey_place(path: &Path) -> usize
    ensures is { result ≡ akey_place path.now }
    ensures within { result < 1024 }
{
    hashed_key(hashed_key(object_place(path.obj), &path.dkey), &path.akey)
}

/// The number of a write: that of its akey, or, of a punch, 1,024.
pub fn place_of(write: &Write) -> usize
    ensures is { result ≡ place_of write.now }
    ensures within { result ≤ 1024 }
{
    match write {
        Write::Single(path, _) | Write::Extent(path, _, _) => akey_place(path),
        Write::PunchObject(_) | Write::PunchDkey(_) | Write::PunchAkey(_) => 1024,
    }
}
