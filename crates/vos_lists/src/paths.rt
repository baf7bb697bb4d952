// The paths of dkeys and akeys, by the keys of trees that say their names.
ghost use Rattle.std.specs.Prelude.{◌≡◌, IfOk, IfSome};
ghost use Rattle.vos_values.specs.Keys.{IsName};
ghost use Rattle.vos_lists.specs.Entries.{name_of};
ghost use Rattle.vos_lists.specs.Paths.{at_akey, at_dkey};

use crate::entry::name_of;
use base_types::items::{Memory, TryCopy};
use base_types::key::Key;
use base_types::path::Path;
use pmem_tree::TreeKey;
use std::alloc::{AllocError, Global};

/// The name that a key says, if it says one.
pub fn name_in(alloc: Global, key: &TreeKey) -> Result<Option<Key>, Memory>
    ensures name { IfOk result (λ name. name ≡ name_of key.now) }
    ensures is { IfOk result (λ name. IfSome name IsName) }
{
    let Some(text) = name_of(key) else {
        return Ok(None);
    };
    let Ok(name) = Key::new(alloc, text) else {
        return Err(AllocError);
    };
    Ok(Some(name))
}

/// The path of a dkey of an object.
pub fn at_dkey(above: &Path, dkey: Key) -> Path
    ensures { result ≡ at_dkey above.now dkey }
{
    Path {
        cont: above.cont,
        obj: above.obj,
        dkey: Some(dkey),
        akey: None,
    }
}

/// The path of an akey of a dkey.
pub fn at_akey(above: &Path, akey: Key) -> Result<Path, Memory>
    ensures { IfOk result (λ path. path ≡ at_akey above.now akey) }
{
    let dkey = above.dkey.copy()?;
    Ok(Path {
        cont: above.cont,
        obj: above.obj,
        dkey,
        akey: Some(akey),
    })
}
