// Whether two keys, paths or names of things are the same.
ghost use Rattle.std.specs.Prelude.{◌≡◌, Decides};

use crate::same::Same;
use base_types::epoch::Epoch;
use base_types::id::{AttemptId, ContId, ObjId};
use base_types::key::Key;
use base_types::path::Path;

impl Same for Epoch {
    fn is_same(&self, other: &Epoch) -> bool {
        self.0 == other.0
    }
}

impl Same for AttemptId {
    fn is_same(&self, other: &AttemptId) -> bool {
        *self == *other
    }
}

impl Same for ContId {
    fn is_same(&self, other: &ContId) -> bool {
        self.0 == other.0
    }
}

impl Same for ObjId {
    fn is_same(&self, other: &ObjId) -> bool {
        self.same(*other)
    }
}

impl Same for Key {
    fn is_same(&self, other: &Key) -> bool {
        self.same(other)
    }
}

impl Same for Path {
    fn is_same(&self, other: &Path) -> bool {
        self.cont.is_same(&other.cont)
            && self.obj.is_same(&other.obj)
            && self.dkey.is_same(&other.dkey)
            && self.akey.is_same(&other.akey)
    }
}
