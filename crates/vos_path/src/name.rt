// Keys of names and of objects.
ghost use Rattle.std.specs.Prelude.{◌≡◌, true};
ghost use Rattle.pmem_pages.specs.Node.{IsKey};
ghost use Rattle.vos_values.specs.declared.keys.Layout.TheVariants.{Two};
ghost use Rattle.vos_values.specs.Keys.{IsName, IsObjectKey, is_size, name_key, object_key};

use base_types::key::Key;
use pmem_pages::node::TreeKey;
use vos_values::keys::{ObjectKey, name_key, object_key};

/// The key of the name of a dkey or an akey.
#[tactic(auto, using(crate::proofs::Naming::name_short))]
pub fn key_of(name: &Key) -> TreeKey
    requires { IsName name.now }
    ensures key { result ≡ name_key name.now }
    ensures is { IsKey result }
{
    name_key(name.bytes())
}

/// The key of an object, whose record size is one.
pub fn key_of_object(object: ObjectKey) -> TreeKey
    requires size { is_size Two object.obj.unit ≡ true }
    ensures key { result ≡ object_key object }
    ensures is { IsKey result }
    ensures object { IsObjectKey Two object }
{
    object_key(object)
}
