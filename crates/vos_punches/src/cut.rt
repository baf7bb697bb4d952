// When a path is another one, as far as a level.
ghost use Rattle.std.specs.Prelude.{◌≡◌};
ghost use Rattle.base_types.specs.Paths.{cut_at, same_path};

use base_types::path::{Level, Path, same_keys, same_objects};

/// Whether a path is another one as far as a level.
#[tactic(auto, unfolding(base_types::specs::Paths::same_path))]
pub(crate) fn is_cut(one: &Path, path: &Path, level: Level) -> bool
    ensures { result ≡ same_path one.now (cut_at level path.now) }
{
    let none = None;
    match level {
        Level::Cont => {
            one.cont.0 == path.cont.0
                && same_objects(one.obj, None)
                && same_keys(&one.dkey, &none)
                && same_keys(&one.akey, &none)
        }
        Level::Obj => {
            one.cont.0 == path.cont.0
                && same_objects(one.obj, path.obj)
                && same_keys(&one.dkey, &none)
                && same_keys(&one.akey, &none)
        }
        Level::Dkey => {
            one.cont.0 == path.cont.0
                && same_objects(one.obj, path.obj)
                && same_keys(&one.dkey, &path.dkey)
                && same_keys(&one.akey, &none)
        }
        Level::Akey => one.same(path),
    }
}
