// Which writes objects can take.
ghost use Rattle.std.specs.Prelude.{◌≡◌};
ghost use Rattle.std.specs.List.{list_all};
ghost use Rattle.base_types.specs.Keys.{first_bad_byte};
ghost use Rattle.vos_pool_changes.specs.Taking.{can_be_taken, is_key, is_key_or_none, may_hold};

use base_types::key::{KEY_MAX, Key, is_key_byte};
use base_types::operation::MinorWrite;
use base_types::path::Path;

// The place of the first byte that may not stand in a key.
fn first_bad_byte(bytes: &[u8]) -> Option<usize>
    ensures { result ≡ first_bad_byte bytes.now }
{
    bytes.iter().position(|byte| !is_key_byte(*byte))
}

// Whether bytes are a key.
fn are_key(bytes: &[u8]) -> bool
    ensures { result ≡ is_key bytes.now }
{
    if bytes.is_empty() || bytes.len() > KEY_MAX {
        return false;
    }
    first_bad_byte(bytes).is_none()
}

// Whether a path has a key, or none.
fn is_key_or_none(key: &Option<Key>) -> bool
    ensures { result ≡ is_key_or_none key.now }
{
    match key {
        Some(key) => are_key(key.bytes()),
        None => true,
    }
}

// Whether a path is one below an object that there can be.
fn may_hold(path: &Path) -> bool
    ensures { result ≡ may_hold path.now }
{
    let size = path.record_size();
    1 <= size && size <= 64 && is_key_or_none(&path.dkey) && is_key_or_none(&path.akey)
}

// Whether objects can take a write.
fn can_be_taken(write: &MinorWrite) -> bool
    ensures { result ≡ can_be_taken write.now }
{
    may_hold(write.write.path())
}

/// Whether objects can take these writes: the record size of each object is from 1 to 64.
pub fn all_can_be_taken(writes: &[MinorWrite]) -> bool
    ensures { result ≡ list_all can_be_taken writes.now }
{
    writes.iter().all(|write| can_be_taken(write))
}
